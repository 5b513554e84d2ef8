ghost use Rattle.std.specs.Prelude.{◌≡◌, ℕ, ◌+◌, ◌*◌, ◌<◌, ◌≤◌, not, ◌&&◌, List, map, length, replicate, ◌==◌, bit_and, bit_or, slice_index};
ghost use Rattle.inline_vec.specs.Vectors.{inline_len};
ghost use Rattle.codec.specs.declared.fault.Part.TheVariants.{Judgement};
ghost use Rattle.lfpl.specs.Judge.{exprs_verdict, arms_verdict};
ghost use Rattle.lfpl.specs.Syntax.{Expr, Exprs, Fun, Program, Ty, var};
ghost use Rattle.lfpl.specs.Typing.{alike, type_at};
ghost use Rattle.tables.specs.Listed.{Holds, InRange, head_of};
ghost use Rattle.judge.specs.Admitting.{AnswersBodies, AnswersBody, AnswersListing, PosedBody, PosesBody};
ghost use Rattle.typing.specs.Codes.{Encodes, Typed, slot_types};
ghost use Rattle.judge.specs.Judging.{Answers, AnswersAll, ArmsNoted, Poses, PosesAll, PosesArms, Posed, PosedAll, PosedArms, arms_from};
ghost use Rattle.judge.specs.Over.{NotedOverAll};
ghost use Rattle.typing.specs.Rules.{names_of};
ghost use Rattle.typing.specs.Scopes.{Scopes, head_mask};

use crate::table::{Note, Table};
use codec::fault::{Fault, Part, Refusal};
use inline_vec::InlineVec;
use tables::listing::{Kind, Listing, Node, Signature};
use typing::codes::{Code, Row, alike, code_of, parameter_codes, slot_codes};
use typing::rules::{Rule, fits, parts_of, rule_of, subject, whole};
use typing::scope::{Scope, copy_of, extend_all, no_variables, raise, variable_place};

// what is found of an expression: the code of its type, the variables that occur in it (a bit for each), and the number of the expression after it
#[derive(Clone, Copy)]
pub(crate) struct Found {
    pub code: Code,
    pub mask: u32,
    pub end: usize,
}

// What is found of several: the codes of their types, the variables that occur, those that occur in two or more of them, and the number of the expression after
// them.
#[derive(Drop)]
pub(crate) struct Several {
    pub row: Row,
    pub mask: u32,
    pub twice: u32,
    pub end: usize,
}

// A fault of the judgement at an expression.
fn fault(refusal: Refusal, place: usize) -> Fault
    ensures { result ≡ record { refusal = refusal; place = place; part = Judgement } }
{
    Fault {
        refusal,
        place,
        part: Part::Judgement,
    }
}

// The variable that the expression itself is, if it is one.
fn own_mask(node: Node) -> u32
    ensures { (ts : List Ty) (fs : List Fun) (n : ℕ) → n ≤ 32 → InRange node.kind (names_of ts fs) n node.number → result ≡ head_mask (head_of ts node) }
{
    match node.kind {
        Kind::Variable => 1 << (node.number % 32),
        _ => 0,
    }
}

// Where the words of a variable begin; 0 at any other expression.
fn place_of(scope: &Scope, node: Node) -> usize
    ensures { (ts Γ : List Ty) (fs : List Fun) (ps : List ℕ) (i : ℕ) → Scopes ts scope.now Γ ps → InRange node.kind (names_of ts fs) (length Γ) node.number → head_of ts node ≡ var i → result ≡ slice_index ps i }
{
    match node.kind {
        Kind::Variable => variable_place(scope, node.number),
        _ => 0,
    }
}

// A choice by a kind of type whose first part does not have it.
fn unfit_choice(rule: Rule, fit: bool) -> bool
    ensures { result ≡ (rule.entry.early && not fit) }
{
    rule.early && !fit
}

// All the types are as they must be: the parts', and the arms' one another's.
fn settled(fit: bool, arms: &Row) -> bool
    ensures { (l : Listing) (ts Bs : List Ty) → Typed l ts → Encodes ts arms.now Bs → inline_len arms.now ≤ 2 → result ≡ (fit && alike (type_at Bs 0) Bs) }
{
    fit && alike(arms)
}

// A variable that is not heap-free occurs in two parts, or in a part and an arm.
fn shared(scope: &Scope, parts: &Several, arms: &Several) -> bool
    ensures { result ≡ not (bit_and (bit_or parts.now.twice (bit_and parts.now.mask arms.now.mask)) scope.now.heavy == 0) }
{
    (parts.twice | (parts.mask & arms.mask)) & scope.heavy != 0
}

// The first of several, and the rest.
fn joined(first: Found, rest: Several) -> Several
    ensures { result ≡ record { row = rest.row; mask = bit_or first.mask rest.mask; twice = bit_or (bit_and first.mask rest.mask) rest.twice; end = rest.end } }
{
    Several {
        mask: first.mask | rest.mask,
        twice: (first.mask & rest.mask) | rest.twice,
        ..rest
    }
}

// Judges the expression with the number `at`, which stands over so many words: its parts, left to right; then, for a choice by a kind of type, that its first part
// has it; then its arms, its types, and sharing. Notes are written at it and at all within it.
#[cycle(judging)]
fn judge(
    listing: &Listing,
    at: usize,
    scope: &Scope,
    over: usize,
    notes: &mut [Note],
) -> Result<Found, Fault>
    requires long { length notes.old ≡ 512 }
    requires low { over ≤ 96 * (at + 1) }
    requires posed { Posed listing.now scope.now at }
    ensures { (ts : List Ty) (fs : List Fun) (Γ : List Ty) (ps : List ℕ) (e : Expr) (j : ℕ) → Poses listing.now scope.now at ts fs Γ ps e j → Answers ts fs Γ ps over at e j notes.old notes.new result }
{
    let node = listing.nodes[at];
    let rule = rule_of(node);
    let count = parts_of(listing, rule);
    let parts = judge_parts(listing, count, at + 1, scope, over, InlineVec::new(), notes)?;
    let about = subject(listing, rule, scope, &parts.row);
    let fit = fits(listing, rule, about, &parts.row);
    if unfit_choice(rule, fit) {
        return Err(fault(Refusal::TypeFault, at));
    }
    let arms = judge_arms(
        listing,
        rule,
        about,
        0,
        parts.end,
        scope,
        over,
        InlineVec::new(),
        notes,
    )?;
    if !settled(fit, &arms.row) {
        return Err(fault(Refusal::TypeFault, at));
    }
    if shared(scope, &parts, &arms) {
        return Err(fault(Refusal::Sharing, at));
    }
    let code = whole(listing, rule, about, &arms.row);
    let place = place_of(scope, node);
    let end = arms.end;
    notes[at] = Note {
        code,
        end,
        place,
        over,
    };
    let mask = own_mask(node) | (parts.mask | arms.mask);
    Ok(Found { code, mask, end })
}

// Judges `count` parts from the number `at` on, the first over so many words and each over those of the parts before it too; their types follow those of `done`.
#[cycle(judging)]
fn judge_parts(
    listing: &Listing,
    count: usize,
    at: usize,
    scope: &Scope,
    over: usize,
    mut done: Row,
    notes: &mut [Note],
) -> Result<Several, Fault>
    requires long { length notes.old ≡ 512 }
    requires low { over + 16 * count ≤ 96 * (at + 1) }
    requires room { inline_len done + count ≤ 6 }
    requires posed { PosedAll listing.now scope.now count at }
    ensures { (ts : List Ty) (fs : List Fun) (Γ : List Ty) (ps : List ℕ) (Ds : List Ty) (es : Exprs) (j : ℕ) → PosesAll listing.now scope.now (replicate count (length Γ)) at ts fs Γ ps es j → Encodes ts done Ds → AnswersAll ts Ds (exprs_verdict fs es at Γ) es at j (λ As. NotedOverAll ts fs notes.new es at Γ ps over As) notes.old notes.new result }
{
    if count == 0 {
        return Ok(Several {
            row: done,
            mask: 0,
            twice: 0,
            end: at,
        });
    }
    let first = judge(listing, at, scope, over, notes)?;
    done.push(first.code);
    let above = raise(listing, over, first.code);
    let rest = judge_parts(listing, count - 1, first.end, scope, above, done, notes)?;
    Ok(joined(first, rest))
}

// Judges the arms of an expression from the arm `arm` on, which has the number `at`, where the rule is about the type with the code; their types follow those of
// `done`.
#[cycle(judging)]
fn judge_arms(
    listing: &Listing,
    rule: Rule,
    code: Code,
    arm: usize,
    at: usize,
    scope: &Scope,
    over: usize,
    mut done: Row,
    notes: &mut [Note],
) -> Result<Several, Fault>
    requires long { length notes.old ≡ 512 }
    requires low { over ≤ 96 * at }
    requires few { rule.arms ≤ 2 }
    requires room { inline_len done ≡ arm }
    requires posed { PosedArms listing.now scope.now rule code arm at }
    ensures { (ts : List Ty) (fs : List Fun) (Γ : List Ty) (ps : List ℕ) (Ds : List Ty) (A : Ty) (es : Exprs) (w j : ℕ) → PosesArms listing.now scope.now rule.entry code arm at ts fs Γ ps A es j → Encodes ts done Ds → AnswersAll ts Ds (arms_verdict fs es (map (slot_types A) (arms_from rule.entry arm)) w at Γ) es at j (ArmsNoted ts fs notes.new es at (map (slot_types A) (arms_from rule.entry arm)) Γ ps over) notes.old notes.new result }
{
    if arm >= rule.arms {
        return Ok(Several {
            row: done,
            mask: 0,
            twice: 0,
            end: at,
        });
    }
    let bound = slot_codes(listing, code, rule.binds[arm]);
    let mut inner = copy_of(scope);
    let above = extend_all(listing, &mut inner, over, &bound);
    let first = judge(listing, at, &inner, above, notes)?;
    done.push(first.code);
    let rest = judge_arms(
        listing,
        rule,
        code,
        arm + 1,
        first.end,
        scope,
        over,
        done,
        notes,
    )?;
    Ok(joined(first, rest))
}

// Judges a body whose outermost expression has the number `at`, over its parameters' words; answers the number of the expression after it.
fn judge_body(
    listing: &Listing,
    signature: Signature,
    at: usize,
    notes: &mut [Note],
) -> Result<usize, Fault>
    requires long { length notes.old ≡ 512 }
    requires posed { PosedBody listing.now signature at }
    ensures { (ts : List Ty) (fs : List Fun) (g : Fun) (j : ℕ) → PosesBody listing.now signature at ts fs g j → AnswersBody ts fs g at j notes.old notes.new result }
{
    let params = parameter_codes(listing, signature);
    let mut scope = no_variables();
    let over = extend_all(listing, &mut scope, 0, &params);
    let found = judge(listing, at, &scope, over, notes)?;
    let result = code_of(listing, signature.result);
    if found.code != result {
        return Err(fault(Refusal::TypeFault, at));
    }
    Ok(found.end)
}

// Judges the bodies in order, and writes where each begins.
fn judge_bodies(listing: &Listing, notes: &mut [Note], starts: &mut [usize]) -> Result<(), Fault>
    requires notes { length notes.old ≡ 512 }
    requires starts { length starts.old ≡ 32 }
    requires holds { (p : Program) × Holds listing.now p }
    ensures { (p : Program) → Holds listing.now p → AnswersBodies p notes.new starts.new result }
{
    let signatures = &listing.signatures[..listing.functions];
    let mut at = 0;
    for (f, signature) in signatures.iter().enumerate() {
        let end = judge_body(listing, *signature, at, notes)?;
        starts[f] = at;
        at = end;
    }
    Ok(())
}

// Judges a table that was read.
pub(crate) fn judge_listing(listing: Listing) -> Result<Table, Fault>
    requires { (p : Program) × Holds listing p }
    ensures { (p : Program) → Holds listing p → AnswersListing p result }
{
    let mut notes = [Note::default(); 512];
    let mut starts = [0; 32];
    judge_bodies(&listing, &mut notes, &mut starts)?;
    Ok(Table {
        listing,
        notes,
        starts,
    })
}
