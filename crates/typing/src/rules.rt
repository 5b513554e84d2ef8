ghost use Rattle.std.specs.Prelude.{◌≡◌, ℕ, ◌<◌, ◌≤◌, true, false, ◌&&◌, List, [], ◌∷◌, length, Some};
ghost use Rattle.lfpl.specs.Syntax.{Fun, Ty};
ghost use Rattle.lfpl.specs.Typing.{fun_at, same_tys, type_at};
ghost use Rattle.tables.specs.Listed.{Signs, formed};
ghost use Rattle.typing.specs.Codes.{Coded, Encodes, Typed, slot_type};
ghost use Rattle.typing.specs.Rules.{Agrees, Basis, Composite, Known, Short, asked, bound, parts_of, subject, type_of, wanted};
ghost use Rattle.typing.specs.Scopes.{Scopes};
ghost use Rattle.typing.specs.declared.codes.Slot.TheVariants.{Number, Whole};
ghost use Rattle.typing.specs.declared.rules.About.TheVariants.{Part};

use crate::codes::Slot::{Diamond as D, First as F, Number as N, Second as S, Whole as W};
use crate::codes::{
    Code, Row, Slot, code_at, code_of, entry_of, parameter_codes, same, slot_code, slot_codes,
};
use crate::scope::{Scope, variable_code};
use tables::listing::{Form, Kind, Listing, Node, Signature};

// the type that a rule is about: N, or that of an entry, of a part, of a variable, or of the result of a function, each by its number
#[derive(Clone, Copy)]
pub enum About {
    Nothing,
    Listed(u32),
    Part(usize),
    Variable(u32),
    Result(u32),
}

// what a type is made as: its form, whatever the types are that it is made of
#[derive(Clone, Copy)]
pub enum Maker {
    Number,
    Diamond,
    List,
    Tree,
    Pair,
    Sum,
}

// What an expression asks: the type that it is about and the form that this type must have, if any; what its parts must be (a call's are its function's
// parameters); how many arms it has and what each binds; and its type where it has no arms (with arms it has theirs). Where `early` is set, the form is tested before the arms
// are judged.
#[derive(Clone, Copy)]
pub struct Rule<'a> {
    pub about: About,
    pub form: Option<Maker>,
    pub early: bool,
    pub wants: &'a [Slot],
    pub arms: usize,
    pub binds: [&'a [Slot]; 2],
    pub whole: Slot,
}

// types in rules: none, and those that rules name
const NONE: &[Slot] = &[];

const FIRST: &[Slot] = &[F];

const SECOND: &[Slot] = &[S];

const WHOLE: &[Slot] = &[W];

const BOTH: &[Slot] = &[F, S];

const NUMBERS: &[Slot] = &[N, N];

const CONS: &[Slot] = &[D, F, W];

const NODE: &[Slot] = &[D, D, F, W, W];

// An expression without arms.
fn builds(about: About, form: Option<Maker>, wants: &'static [Slot], whole: Slot) -> Rule<'static>
    ensures rule { result ≡ record { about = about; form = form; early = false; wants = wants.entry; arms = 0; binds = result.binds; whole = whole } }
    ensures binds { bound result ≡ [] ∷ [] ∷ [] }
{
    Rule {
        about,
        form,
        early: false,
        wants,
        arms: 0,
        binds: [NONE, NONE],
        whole,
    }
}

// A choice by its first part, whose form is tested before the arms are judged.
fn chooses(form: Maker, arms: usize, left: &'static [Slot], right: &'static [Slot]) -> Rule<'static>
    ensures rule { result ≡ record { about = Part 0; form = Some form; early = true; wants = result.wants; arms = arms; binds = left.entry ∷ right.entry ∷ []; whole = Number } }
    ensures wants { result.wants.now ≡ Whole ∷ [] }
{
    Rule {
        about: About::Part(0),
        form: Some(form),
        early: true,
        wants: WHOLE,
        arms,
        binds: [left, right],
        whole: N,
    }
}

// A choice by a number, between two arms that bind nothing.
const GUARD: Rule<'static> = Rule {
    about: About::Nothing,
    form: None,
    early: false,
    wants: WHOLE,
    arms: 2,
    binds: [NONE, NONE],
    whole: N,
};

// The rules: what an expression of each kind asks. None asks for the form of N or of a diamond: a slot says where one of these must be.
pub fn rule_of(node: Node) -> Rule<'static>
    ensures agrees { Agrees node result }
    ensures composite { Composite result.form }
{
    let number = node.number;
    match node.kind {
        Kind::Variable => builds(About::Variable(number), None, NONE, W),
        Kind::Call => builds(About::Result(number), None, NONE, W),
        Kind::Constant => builds(About::Nothing, None, NONE, N),
        Kind::Infix => builds(About::Nothing, None, NUMBERS, N),
        Kind::Guard => GUARD,
        Kind::MakePair => builds(About::Listed(number), Some(Maker::Pair), BOTH, W),
        Kind::SplitPair => chooses(Maker::Pair, 1, BOTH, NONE),
        Kind::MakeLeft => builds(About::Listed(number), Some(Maker::Sum), FIRST, W),
        Kind::MakeRight => builds(About::Listed(number), Some(Maker::Sum), SECOND, W),
        Kind::CaseSum => chooses(Maker::Sum, 2, FIRST, SECOND),
        Kind::EmptyList => builds(About::Listed(number), Some(Maker::List), NONE, W),
        Kind::MakeCons => builds(About::Part(2), Some(Maker::List), CONS, W),
        Kind::CaseList => chooses(Maker::List, 2, NONE, CONS),
        Kind::MakeLeaf => builds(About::Listed(number), Some(Maker::Tree), FIRST, W),
        Kind::MakeNode => builds(About::Part(3), Some(Maker::Tree), NODE, W),
        Kind::CaseTree => chooses(Maker::Tree, 2, FIRST, NODE),
    }
}

// The signature of the function with the number.
pub fn signature_of(listing: &Listing, number: u32) -> Signature
    ensures { (ts : List Ty) (fs : List Fun) → Basis listing.now ts fs → number < length fs → Signs ts result (type_of (fun_at fs number)) }
{
    listing.signatures[number as usize % 32]
}

// How many parts an expression has.
pub fn parts_of(listing: &Listing, rule: Rule) -> usize
    ensures { (ts : List Ty) (fs : List Fun) (Γ : List Ty) (n : ℕ) → Basis listing.now ts fs → Known ts fs Γ rule.entry.about n → result ≡ parts_of fs rule.entry.about rule.entry.wants.now }
{
    match rule.about {
        About::Result(number) => signature_of(listing, number).arity,
        _ => rule.wants.len(),
    }
}

// The code of the type that a rule is about, where its parts have the types of the row.
pub fn subject(listing: &Listing, rule: Rule, scope: &Scope, parts: &Row) -> Code
    ensures { (ts : List Ty) (fs : List Fun) (Γ As : List Ty) (ps : List ℕ) → Basis listing.now ts fs → Scopes ts scope.now Γ ps → Encodes ts parts.now As → Known ts fs Γ rule.entry.about (length As) → Coded ts result (subject ts fs Γ As rule.entry.about) }
{
    match rule.about {
        About::Nothing => Code::Number,
        About::Listed(number) => code_of(listing, (number % 64) as u8),
        About::Part(k) => code_at(parts, k),
        About::Variable(number) => variable_code(scope, number),
        About::Result(number) => code_of(listing, signature_of(listing, number).result),
    }
}

// The codes of the types that the parts must have, where the rule is about the type with the code.
fn wants(listing: &Listing, rule: Rule, code: Code) -> Row
    ensures { (ts : List Ty) (fs : List Fun) (Γ : List Ty) (A : Ty) (n : ℕ) → Basis listing.now ts fs → Known ts fs Γ rule.entry.about n → Short rule.entry.wants.now → Coded ts code A → Encodes ts result (wanted fs rule.entry.about rule.entry.wants.now A) }
{
    match rule.about {
        About::Result(number) => parameter_codes(listing, signature_of(listing, number)),
        _ => slot_codes(listing, code, rule.wants),
    }
}

// The form is the one that is asked for, if one is.
fn has_form(wish: Option<Maker>, form: Form) -> bool
    ensures { (ts : List Ty) → result ≡ asked wish (formed ts form) }
{
    match wish {
        None => true,
        Some(Maker::Number) => matches!(form, Form::Number),
        Some(Maker::Diamond) => matches!(form, Form::Diamond),
        Some(Maker::List) => matches!(form, Form::List(_)),
        Some(Maker::Tree) => matches!(form, Form::Tree(_)),
        Some(Maker::Pair) => matches!(form, Form::Pair(..)),
        Some(Maker::Sum) => matches!(form, Form::Sum(..)),
    }
}

// The type that the rule is about has the right form, and the parts have the types that the rule wants.
pub fn fits(listing: &Listing, rule: Rule, code: Code, parts: &Row) -> bool
    ensures { (ts : List Ty) (fs : List Fun) (Γ As : List Ty) (A : Ty) (n : ℕ) → Basis listing.now ts fs → Known ts fs Γ rule.entry.about n → Short rule.entry.wants.now → Coded ts code A → Encodes ts parts.now As → result ≡ (asked rule.entry.form A && same_tys As (wanted fs rule.entry.about rule.entry.wants.now A)) }
{
    let entry = entry_of(listing, code);
    let wanted = wants(listing, rule, code);
    has_form(rule.form, entry.form) && same(parts, &wanted)
}

// The code of the type of the whole: that of its arms, or else what the rule gives.
pub fn whole(listing: &Listing, rule: Rule, code: Code, arms: &Row) -> Code
    ensures built { (ts : List Ty) (A : Ty) → Typed listing.now ts → Coded ts code A → rule.entry.arms ≡ 0 → Coded ts result (slot_type A rule.entry.whole) }
    ensures chosen { (ts Bs : List Ty) → Encodes ts arms.now Bs → 1 ≤ rule.entry.arms → 1 ≤ length Bs → Coded ts result (type_at Bs 0) }
{
    if rule.arms == 0 {
        slot_code(listing, code, rule.whole)
    } else {
        code_at(arms, 0)
    }
}
