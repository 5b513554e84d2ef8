ghost use Rattle.std.specs.Prelude.{◌≡◌, ℕ, ◌+◌, ◌^◌, ◌<◌, ◌≤◌, not, ◌&&◌, List, [], ◌∷◌, ◌++◌, ◌==◌, slice_index};
ghost use Rattle.inline_vec.specs.Vectors.{inline_len};
ghost use Rattle.lfpl.specs.Syntax.{Ty, width};
ghost use Rattle.lfpl.specs.Typing.{type_at};
ghost use Rattle.typing.specs.Codes.{Coded, Encodes, Typed};
ghost use Rattle.typing.specs.Scopes.{offsets, widths};
ghost use Rattle.typing.specs.Scopes.{Scopes, has};

use crate::codes::{Code, Row, entry_of};
use inline_vec::InlineVec;
use tables::listing::Listing;

// a variable in scope: the code of its type, and where its words begin above those of the body's first parameter
#[derive(Clone, Copy, Default)]
pub struct Variable {
    pub code: Code,
    pub place: usize,
}

// The variables in scope at an expression, and a bit for each whose type is not heap-free.
#[derive(Clone, Copy)]
pub struct Scope {
    pub variables: InlineVec<Variable, 32>,
    pub heavy: u32,
}

// No variable.
pub fn no_variables() -> Scope
    ensures scopes { (ts : List Ty) → Scopes ts result [] [] }
    ensures count { inline_len result.variables ≡ 0 }
{
    Scope {
        variables: InlineVec::new(),
        heavy: 0,
    }
}

// The code of the type of the variable with the number; N where there is none.
pub fn variable_code(scope: &Scope, number: u32) -> Code
    ensures { (ts Γ : List Ty) (ps : List ℕ) → Scopes ts scope.now Γ ps → Coded ts result (type_at Γ number) }
{
    match scope.variables.as_slice().get(number as usize) {
        Some(variable) => variable.code,
        None => Code::Number,
    }
}

// Where the words of the variable with the number begin; 0 where there is none.
pub fn variable_place(scope: &Scope, number: u32) -> usize
    ensures { (ts Γ : List Ty) (ps : List ℕ) → Scopes ts scope.now Γ ps → result ≡ slice_index ps number }
{
    match scope.variables.as_slice().get(number as usize) {
        Some(variable) => variable.place,
        None => 0,
    }
}

// The same variables, to which others may be added.
pub fn copy_of(scope: &Scope) -> Scope
    ensures { result ≡ scope.now }
{
    Scope {
        variables: scope.variables,
        heavy: scope.heavy,
    }
}

// The bit of the variable with the number `at`; none where it is heap-free.
fn heavy_bit(free: bool, at: usize) -> u32
    requires { at < 32 }
    ensures has { (v : ℕ) → has result v ≡ (not free && v == at) }
    ensures small { result < 2 ^ 32 }
{
    if free { 0 } else { 1u32 << at }
}

// Over how many words it is, with those of a value of the type with the code besides.
pub fn raise(listing: &Listing, over: usize, code: Code) -> usize
    requires { over ≤ 65536 }
    ensures over { (ts : List Ty) (A : Ty) → Typed listing.now ts → Coded ts code A → result ≡ over + width A }
    ensures low { result ≤ over + 255 }
{
    over + entry_of(listing, code).width as usize
}

// One variable more, whose words lie over so many; over how many then.
pub fn extend(listing: &Listing, scope: &mut Scope, over: usize, code: Code) -> usize
    requires room { inline_len scope.old.variables < 32 }
    requires low { over ≤ 65536 }
    ensures scopes { (ts Γ : List Ty) (A : Ty) (ps : List ℕ) → Typed listing.now ts → Coded ts code A → Scopes ts scope.old Γ ps → Scopes ts scope.new (Γ ++ A ∷ []) (ps ++ over ∷ []) }
    ensures over { (ts : List Ty) (A : Ty) → Typed listing.now ts → Coded ts code A → result ≡ over + width A }
    ensures count { inline_len scope.new.variables ≡ inline_len scope.old.variables + 1 }
    ensures low { result ≤ over + 255 }
{
    let at = scope.variables.len();
    scope.variables.push(Variable { code, place: over });
    scope.heavy |= heavy_bit(entry_of(listing, code).heap_free, at);
    raise(listing, over, code)
}

// One variable more for each type of the row, whose words lie over so many; over how many then.
pub fn extend_all(listing: &Listing, scope: &mut Scope, over: usize, row: &Row) -> usize
    requires room { inline_len scope.old.variables + inline_len row.now ≤ 32 }
    requires low { over ≤ 60000 }
    ensures scopes { (ts Γ As : List Ty) (ps : List ℕ) → Typed listing.now ts → Encodes ts row.now As → Scopes ts scope.old Γ ps → Scopes ts scope.new (Γ ++ As) (ps ++ offsets over As) }
    ensures over { (ts As : List Ty) → Typed listing.now ts → Encodes ts row.now As → result ≡ over + widths As }
{
    let mut end = over;
    for code in row.as_slice() {
        end = extend(listing, scope, end, *code);
    }
    end
}
