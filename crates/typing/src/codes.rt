ghost use Rattle.std.specs.Prelude.{◌≡◌, ◌+◌, ◌<◌, ◌≤◌, List, [], ◌∷◌, ◌++◌, length, map};
ghost use Rattle.inline_vec.specs.Vectors.{inline_len};
ghost use Rattle.lfpl.specs.Syntax.{Ty, first, second};
ghost use Rattle.lfpl.specs.Typing.{alike, same_tys, type_at};
ghost use Rattle.typing.specs.Codes.{Coded, Describes, Encodes, TellsEach, Typed, slot_type, slot_types};
ghost use Rattle.lfpl.specs.Reading.{Signature as TypeOf};
ghost use Rattle.tables.specs.Listed.{Signs};
ghost use Rattle.typing.specs.Rules.{Short};

use inline_vec::InlineVec;
use tables::listing::{Entry, Form, Listing, Signature};

// a type by its code: N and diamond, whether the table lists them or not (an arm may bind a diamond in a table without one), or the number of an entry that is
// neither. So equal types have equal codes.
#[derive(Clone, Copy, Debug, Default, PartialEq, Eq)]
pub enum Code {
    #[default]
    Number,
    Diamond,
    Listed(u8),
}

// a type in a rule, by the type that the rule is about: N, diamond, that type itself, or what that type is made of
#[derive(Clone, Copy)]
pub enum Slot {
    Number,
    Diamond,
    Whole,
    First,
    Second,
}

// the codes of up to six types
pub type Row = InlineVec<Code, 6>;

// what N and diamond are
const NUMBER_ENTRY: Entry = Entry {
    form: Form::Number,
    width: 1,
    heap_free: true,
};

const DIAMOND_ENTRY: Entry = Entry {
    form: Form::Diamond,
    width: 1,
    heap_free: false,
};

// What the type with the code is: its form, with the entries of what it is made of, its width, and whether it is heap-free.
pub fn entry_of(listing: &Listing, code: Code) -> Entry
    ensures { (ts : List Ty) (A : Ty) → Typed listing.now ts → Coded ts code A → Describes ts A result }
{
    match code {
        Code::Number => NUMBER_ENTRY,
        Code::Diamond => DIAMOND_ENTRY,
        Code::Listed(i) => listing.entries[i as usize % 64],
    }
}

// The code of the type that the entry with the number i lists.
pub fn code_of(listing: &Listing, i: u8) -> Code
    ensures { (ts : List Ty) → Typed listing.now ts → i < length ts → Coded ts result (type_at ts i) }
{
    match listing.entries[i as usize % 64].form {
        Form::Number => Code::Number,
        Form::Diamond => Code::Diamond,
        _ => Code::Listed(i),
    }
}

// The code of the first type that a type is made of; N where it is made of none.
pub fn first_of(listing: &Listing, code: Code) -> Code
    ensures { (ts : List Ty) (A : Ty) → Typed listing.now ts → Coded ts code A → Coded ts result (first A) }
{
    match entry_of(listing, code).form {
        Form::Number | Form::Diamond => Code::Number,
        Form::List(a) | Form::Tree(a) | Form::Pair(a, _) | Form::Sum(a, _) => code_of(listing, a),
    }
}

// The code of the second type that a type is made of; N where it is made of at most one.
pub fn second_of(listing: &Listing, code: Code) -> Code
    ensures { (ts : List Ty) (A : Ty) → Typed listing.now ts → Coded ts code A → Coded ts result (second A) }
{
    match entry_of(listing, code).form {
        Form::Pair(_, b) | Form::Sum(_, b) => code_of(listing, b),
        _ => Code::Number,
    }
}

// The code of what a slot asks for, where the rule is about the type with the code.
pub fn slot_code(listing: &Listing, code: Code, slot: Slot) -> Code
    ensures { (ts : List Ty) (A : Ty) → Typed listing.now ts → Coded ts code A → Coded ts result (slot_type A slot) }
{
    match slot {
        Slot::Number => Code::Number,
        Slot::Diamond => Code::Diamond,
        Slot::Whole => code,
        Slot::First => first_of(listing, code),
        Slot::Second => second_of(listing, code),
    }
}

// The code of the type at a place of the row; N past its end.
pub fn code_at(row: &Row, i: usize) -> Code
    ensures { (ts As : List Ty) → Encodes ts row.now As → Coded ts result (type_at As i) }
{
    row.as_slice().get(i).copied().unwrap_or(Code::Number)
}

// Two rows are of the same types.
pub fn same(a: &Row, b: &Row) -> bool
    ensures { (l : Listing) (ts As Bs : List Ty) → Typed l ts → Encodes ts a.now As → Encodes ts b.now Bs → result ≡ same_tys As Bs }
{
    a.as_slice() == b.as_slice()
}

// The row, which is of at most two types, has none that differs from the first.
pub fn alike(row: &Row) -> bool
    ensures { (l : Listing) (ts As : List Ty) → Typed l ts → Encodes ts row.now As → inline_len row.now ≤ 2 → result ≡ alike (type_at As 0) As }
{
    row.len() < 2 || code_at(row, 0) == code_at(row, 1)
}

// The codes of the items' types, each of which `code` tells.
fn codes_of<T: Copy, F: Fn(T) -> Code>(items: &[T], code: F) -> Row
    requires few { length items.now ≤ 6 }
    requires callable { F.IsAlwaysCallable code }
    ensures { (ts : List Ty) (type : T → Ty) → TellsEach ts (F.post code) type items.now → Encodes ts result (map type items.now) }
{
    let mut row = InlineVec::new();
    for item in items {
        row.push(code(*item));
    }
    row
}

// The codes of what slots ask for, where the rule is about the type with the code.
pub fn slot_codes(listing: &Listing, code: Code, asked: &[Slot]) -> Row
    ensures { (ts : List Ty) (A : Ty) → Typed listing.now ts → Coded ts code A → Short asked.now → Encodes ts result (slot_types A asked.now) }
{
    codes_of(
        &asked[..asked.len().min(5)],
        |slot| slot_code(listing, code, slot),
    )
}

// The codes of a function's parameters.
pub fn parameter_codes(listing: &Listing, signature: Signature) -> Row
    ensures { (ts : List Ty) (s : TypeOf) → Typed listing.now ts → Signs ts signature s → Encodes ts result s.params }
{
    codes_of(
        &signature.params[..signature.arity.min(6)],
        |number| code_of(listing, number),
    )
}
