//! Makes code of an admitted table: each expression's operation, from what the table lists and the judge noted. An expression is made of its number alone, so they
//! are made one by one, in any order.

#![tactic(auto)]

ghost use Rattle.std.specs.Prelude.{◌≡◌, ℕ, ◌%◌, ◌<◌, List, slice_index, slice_index_or};
ghost use Rattle.std.specs.Int.{w32};
ghost use Rattle.std.proofs.Common.{of_z};
ghost use Rattle.code.specs.Nodes.{no_node};
ghost use Rattle.code.specs.Standing.{Encodes, code_infix};
ghost use Rattle.codec.specs.Integer.{unzigzag as unzigzagged};
ghost use Rattle.judge.specs.Admitting.{Carries, TellsOver};
ghost use Rattle.lfpl.specs.Reading.{operations};
ghost use Rattle.lfpl.specs.Syntax.{Program, Ty, plus, width};
ghost use Rattle.meaning.specs.Act.{wrap};
ghost use Rattle.tables.specs.Listed.{head_by, head_of};
ghost use Rattle.typing.specs.Codes.{Coded, Typed};
ghost use Rattle.assembler.specs.Making.{Made, about_at, is_choice_head, listed_at, operation_by, type_widths, word_of};

use code::{Code, Infix, Node, Op};
use codec::integer::unzigzag;
use judge::table::{Note, Table};
use std::array;
use tables::listing::{Kind, Listing, Node as Listed};
use typing::codes::{Code as TypeCode, entry_of, first_of, second_of};

/// How many words a value of a type has, and one of each type that it is made of.
#[derive(Clone, Copy)]
struct Widths {
    whole: u32,
    left: u32,
    right: u32,
}

// A number as code has it. What is noted of a table is far below the bound.
fn word(n: usize) -> u32
    ensures { result ≡ word_of n }
{
    (n % 65536) as u32
}

// How many words a value of the type with the code has.
fn width_of(listing: &Listing, code: TypeCode) -> u32
    ensures { (ts : List Ty) (A : Ty) → Typed listing.now ts → Coded ts code A → result ≡ width A }
{
    entry_of(listing, code).width as u32
}

// The widths of the type with the code and of those that it is made of.
fn widths_of(listing: &Listing, code: TypeCode) -> Widths
    ensures { (ts : List Ty) (A : Ty) → Typed listing.now ts → Coded ts code A → result ≡ type_widths A }
{
    Widths {
        whole: width_of(listing, code),
        left: width_of(listing, first_of(listing, code)),
        right: width_of(listing, second_of(listing, code)),
    }
}

// The infix operation with the number; a number past the last is Plus. So no `From`, which loses nothing, and no `TryFrom`, which refuses.
fn infix_of(number: u32) -> Infix
    ensures { result ≡ code_infix (slice_index_or operations number plus) }
{
    match number {
        1 => Infix::Minus,
        2 => Infix::Times,
        3 => Infix::Equal,
        4 => Infix::AtMost,
        _ => Infix::Plus,
    }
}

// The word of the constant with the number.
fn constant(number: u32) -> u32
    ensures { result ≡ of_z w32 (wrap (unzigzagged number)) }
{
    unzigzag(number).cast_unsigned()
}

// An expression of the kind chooses an arm by its first part.
fn is_choice(kind: Kind) -> bool
    ensures { (ts : List Ty) (v : ℕ) → result ≡ is_choice_head (head_by kind ts v) }
{
    matches!(
        kind,
        Kind::Guard | Kind::SplitPair | Kind::CaseSum | Kind::CaseList | Kind::CaseTree
    )
}

// The operation of what is listed, where a variable lies at the place, a function's body begins at the number, and the type that the operation is about has the
// widths.
fn operation(listed: Listed, place: u32, start: u32, widths: Widths) -> Op
    ensures { (ts : List Ty) → result ≡ operation_by (head_of ts listed) place start widths }
{
    match listed.kind {
        Kind::Variable => Op::Variable {
            place,
            width: widths.whole,
        },
        Kind::Call => Op::Call(start),
        Kind::Constant => Op::Constant(constant(listed.number)),
        Kind::Infix => Op::Apply(infix_of(listed.number)),
        Kind::Guard => Op::Guard,
        Kind::MakePair => Op::Pair(widths.whole),
        Kind::SplitPair => Op::Split,
        Kind::MakeLeft => Op::Tag {
            mark: 0,
            width: widths.left,
        },
        Kind::MakeRight => Op::Tag {
            mark: 1,
            width: widths.right,
        },
        Kind::CaseSum => Op::CaseSum {
            left: widths.left,
            right: widths.right,
        },
        Kind::EmptyList => Op::Empty,
        Kind::MakeCons => Op::Cons(widths.left),
        Kind::CaseList => Op::CaseList(widths.left),
        Kind::MakeLeaf => Op::Tag {
            mark: 0,
            width: widths.left,
        },
        Kind::MakeNode => Op::Fork(widths.left),
        Kind::CaseTree => Op::CaseTree(widths.left),
    }
}

// What is listed at the number.
fn listed_at(table: &Table, at: usize) -> Listed
    requires { at < 512 }
    ensures { result ≡ listed_at table.now at }
{
    table.listing().nodes[at]
}

// The note at what the expression with the number is about: a choice is about its first part, which follows it and ends where the arms begin; any other expression is
// about its own type, and has no arms before its end.
fn about_of(table: &Table, listed: Listed, at: usize) -> Note
    requires { at < 512 }
    ensures { (ts : List Ty) → result ≡ about_at table.now (head_of ts listed) at }
{
    if is_choice(listed.kind) {
        table.note(at + 1)
    } else {
        table.note(at)
    }
}

// The expression with the number; expressions are numbered below 512.
fn node_of(table: &Table, number: usize) -> Node
    ensures { Made table.now (number % 512) result }
{
    let at = number % 512;
    let listed = listed_at(table, at);
    let note = table.note(at);
    let about = about_of(table, listed, at);
    let place = word(note.place);
    let start = word(table.start(listed.number as usize));
    let widths = widths_of(table.listing(), about.code);
    let op = operation(listed, place, start, widths);
    let over = word(note.over);
    let arms = word(about.end);
    let end = word(note.end);
    Node {
        op,
        over,
        arms,
        end,
    }
}

// All expressions, by number.
fn nodes_of(table: &Table) -> [Node; 512]
    ensures { (n : ℕ) → n < 512 → Made table.now n (slice_index_or result n no_node) }
{
    // the clause is what `from_fn` passes on of each call
    array::from_fn(
        |number|
            ensures { Made table.entry.now (number % 512) result }
        { node_of(table, number) },
    )
}

// Where each function's body begins.
fn starts_of(table: &Table) -> [u32; 32]
    ensures { (f : ℕ) → f < 32 → slice_index result f ≡ word_of (slice_index table.now.starts f) }
{
    array::from_fn(|f| word(table.start(f)))
}

/// Makes code of an admitted table.
pub fn assemble(table: &Table) -> Code
    ensures { (p : Program) → Carries table.now p → TellsOver table.now p → Encodes result p }
{
    Code {
        nodes: nodes_of(table),
        starts: starts_of(table),
    }
}
