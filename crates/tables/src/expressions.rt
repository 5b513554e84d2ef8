ghost use Rattle.std.specs.Prelude.{◌≡◌, ◌+◌, ◌-◌, ◌<◌, ◌≤◌, List, [], ◌∷◌, map, length, take, IfOk, OnOk, slice_index};
ghost use Rattle.codec.specs.Stack.{held, room};
ghost use Rattle.lfpl.specs.Reading.{Names, each_at, expr_at, head_at, shape};
ghost use Rattle.lfpl.specs.Syntax.{Ty};
ghost use Rattle.tables.specs.declared.expressions.Operand.TheVariants.{Nothing as no_operand};
ghost use Rattle.tables.specs.Inner.{Begins, Few, Gives, Named, Nexts, Ranges, arms_of, inner, kind_at, operand_at, operand_of, to_come, waiting};
ghost use Rattle.tables.specs.Listed.{AllStand, head_by, head_of};

use crate::listing::{Kind, Node, Signature};
use codec::cursor::Cursor;
use codec::fault::{Fault, Refusal};
use codec::pile::Pile;

// a table has at most so many expressions
const MOST_EXPRESSIONS: usize = 512;

// at most so many variables are in scope
const MOST_VARIABLES: usize = 32;

// room for every body that waits and for every expression begun
const PILE_ROOM: usize = 544;

// the infix operations are numbered from 0 up to below this
const OPERATORS_END: u32 = 5;

// the kinds by their numbers (a table: a `match` would write each number out beside its kind)
const KINDS: [Kind; 16] = [
    Kind::Variable,
    Kind::Call,
    Kind::Constant,
    Kind::Infix,
    Kind::Guard,
    Kind::MakePair,
    Kind::SplitPair,
    Kind::MakeLeft,
    Kind::MakeRight,
    Kind::CaseSum,
    Kind::EmptyList,
    Kind::MakeCons,
    Kind::CaseList,
    Kind::MakeLeaf,
    Kind::MakeNode,
    Kind::CaseTree,
];

// what the number of an expression is
#[derive(Clone, Copy)]
pub enum Operand {
    Nothing,
    Variable,
    Function,
    Integer,
    Operator,
    Type,
}

// What an expression of a kind has: its number, its count of parts (0 for a call, whose parts are its function's parameters), and how many variables each of
// its arms binds.
#[derive(Clone, Copy)]
pub struct Shape {
    pub operand: Operand,
    pub parts: u8,
    pub arms: &'static [u8],
}

// An unfinished expression: the count of variables in its scope, its parts to come, and how many variables each of its arms to come binds.
#[derive(Clone, Copy)]
pub struct Open {
    pub scope: u8,
    pub parts: usize,
    pub arms: &'static [u8],
}

// What the bodies of a table may name, beside the variables in scope: so many types, and its functions.
#[derive(Drop)]
pub struct Declared<'a> {
    types: usize,
    functions: &'a [Signature],
    ghost few_types: { types ≤ 64 },
    ghost few_functions: { length functions.now ≤ 32 },
}

// An expression without arms.
fn without_arms(operand: Operand, parts: u8) -> Shape
    ensures operand { result.operand ≡ operand }
    ensures parts { result.parts ≡ parts }
    ensures arms { result.arms.now ≡ [] }
{
    Shape {
        operand,
        parts,
        arms: &[],
    }
}

// A choice by its one part among arms.
fn choice(arms: &'static [u8]) -> Shape
    ensures operand { result.operand ≡ no_operand }
    ensures parts { result.parts ≡ 1 }
    ensures arms { result.arms.now ≡ arms.now }
{
    Shape {
        operand: Operand::Nothing,
        parts: 1,
        arms,
    }
}

// What an expression of the kind has.
fn shape_of(kind: Kind) -> Shape
    ensures operand { result.operand ≡ operand_of kind }
    ensures parts { result.parts ≡ (shape [] (head_by kind [] 0)).parts }
    ensures arms { result.arms.now ≡ arms_of kind }
{
    match kind {
        Kind::Variable => without_arms(Operand::Variable, 0),
        Kind::Call => without_arms(Operand::Function, 0),
        Kind::Constant => without_arms(Operand::Integer, 0),
        Kind::Infix => without_arms(Operand::Operator, 2),
        Kind::Guard => choice(&[0, 0]),
        Kind::MakePair => without_arms(Operand::Type, 2),
        Kind::SplitPair => choice(&[2]),
        Kind::MakeLeft => without_arms(Operand::Type, 1),
        Kind::MakeRight => without_arms(Operand::Type, 1),
        Kind::CaseSum => choice(&[1, 1]),
        Kind::EmptyList => without_arms(Operand::Type, 0),
        Kind::MakeCons => without_arms(Operand::Nothing, 3),
        Kind::CaseList => choice(&[0, 3]),
        Kind::MakeLeaf => without_arms(Operand::Type, 1),
        Kind::MakeNode => without_arms(Operand::Nothing, 5),
        Kind::CaseTree => choice(&[1, 5]),
    }
}

impl Declared<'_> {
    // The number of an expression in a scope of so many variables.
    fn read_operand(&self, cursor: &mut Cursor, what: Operand, scope: usize) -> Result<u32, Fault>
        requires { scope ≤ 32 }
        ensures { (ns : Names) → Named self.now.types self.now.functions.now ns → Gives (operand_at ns scope what) (λ v w. (v ≡ w) × Ranges ns scope what v) cursor.old result cursor.new }
    {
        match what {
            Operand::Nothing => Ok(0),
            Operand::Variable => cursor.within(0, scope as u32),
            Operand::Function => cursor.within(0, self.functions.len() as u32),
            Operand::Integer => cursor.number(),
            Operand::Operator => cursor.within(0, OPERATORS_END),
            Operand::Type => cursor.within(0, self.types as u32),
        }
    }

    // An expression's kind and number, in a scope of so many variables.
    fn read_node(&self, cursor: &mut Cursor, scope: usize) -> Result<Node, Fault>
        requires { scope ≤ 32 }
        ensures { (ns : Names) → Named self.now.types self.now.functions.now ns → Gives (kind_at ns scope) (Begins ns scope) cursor.old result cursor.new }
    {
        let index = cursor.within(0, 16)?;
        let kind = KINDS[index as usize];
        let number = self.read_operand(cursor, shape_of(kind).operand, scope)?;
        Ok(Node { kind, number })
    }

    // An expression begins after `count` others, in a scope of so many variables: the scope is tested before the count.
    #[tactic(auto, using(crate::proofs::Expressed::begins_wide, crate::proofs::Expressed::begins_crowded, crate::proofs::Expressed::begins_on))]
    fn begin(&self, cursor: &mut Cursor, count: usize, scope: usize) -> Result<Node, Fault>
        ensures gives { (ns : Names) → Named self.now.types self.now.functions.now ns → Gives (head_at ns (512 - count) scope) (Begins ns scope) cursor.old result cursor.new }
        ensures bound { OnOk result ((scope ≤ 32) × (count < 512)) }
    {
        let start = cursor.place();
        if scope > MOST_VARIABLES {
            return Err(cursor.fault(Refusal::TooManyVariables, start));
        }
        if count >= MOST_EXPRESSIONS {
            return Err(cursor.fault(Refusal::TooManyExpressions, start));
        }
        self.read_node(cursor, scope)
    }

    // How many parameters the function with the number has; 0 where there is none.
    fn arity_of(&self, number: u32) -> usize
        ensures { result ≡ slice_index (map (λ f. f.arity) self.now.functions.now) number }
    {
        self.functions.get(number as usize).map_or(0, |f| f.arity)
    }

    // How many parts the expression has.
    fn part_count(&self, node: Node) -> usize
        ensures { (ts : List Ty) → result ≡ (shape (map (λ f. f.arity) self.now.functions.now) (head_of ts node)).parts }
    {
        match node.kind {
            Kind::Call => self.arity_of(node.number),
            _ => shape_of(node.kind).parts as usize,
        }
    }

    // All parts and arms of the expression are to come.
    fn opened(&self, node: Node, scope: u8) -> Open
        ensures { (ts : List Ty) → to_come result ≡ inner (map (λ f. f.arity) self.now.functions.now) (head_of ts node) scope }
    {
        Open {
            scope,
            parts: self.part_count(node),
            arms: shape_of(node.kind).arms,
        }
    }
}

// The next part or arm of an unfinished expression, by the count of variables in its scope, and what is then to come.
#[tactic(auto, using(crate::proofs::Expressed::next_part, crate::proofs::Expressed::next_arm, crate::proofs::Expressed::next_none))]
fn next(o: Open) -> Option<(usize, Open)>
    ensures { Nexts (to_come o) result }
{
    let scope = o.scope as usize;
    if o.parts > 0 {
        let parts = o.parts - 1;
        return Some((scope, Open { parts, ..o }));
    }
    match o.arms {
        [] => None,
        [bound, arms @ ..] => Some((scope + *bound as usize, Open { arms, ..o })),
    }
}

// A function's body is to come: one expression in the scope of its parameters.
#[tactic(auto, using(crate::proofs::Expressed::body_comes))]
fn body(arity: usize) -> Open
    requires { arity ≤ 6 }
    ensures { to_come result ≡ arity ∷ [] }
{
    Open {
        scope: arity as u8,
        parts: 1,
        arms: &[],
    }
}

// Piles up the bodies of the functions, the first on top.
fn pile_bodies(pile: &mut Pile<Open>, functions: &[Signature])
    requires empty { held pile.old ≡ [] }
    requires room { room pile.old ≡ 544 }
    requires functions { length functions.now ≤ 32 }
    requires few { Few functions.now }
    ensures waiting { waiting (held pile.new) ≡ map (λ f. f.arity) functions.now }
    ensures deep { length (held pile.new) ≤ 32 }
    ensures room { room pile.new ≡ 544 }
    ensures same { pile.new.slots.ghost_name ≡ pile.old.slots.ghost_name }
{
    for f in functions.iter().rev() {
        let _ = pile.push(body(f.arity));
    }
}

// The bodies of the functions, as nodes in reading order; answers the count of expressions.
pub fn expressions(
    cursor: &mut Cursor,
    types: usize,
    functions: &[Signature],
    nodes: &mut [Node],
) -> Result<usize, Fault>
    requires types { types ≤ 64 }
    requires functions { length functions.now ≤ 32 }
    requires few { Few functions.now }
    requires nodes { length nodes.old ≡ 512 }
    ensures gives { (ns : Names) → Named types functions.now ns
        → Gives (each_at ns (expr_at ns 513) 512 ns.arities) (λ n es. AllStand ns (take n nodes.new) ns.arities 0 es n) cursor.old result cursor.new }
    ensures bound { IfOk result (λ n. n ≤ 512) }
{
    let declared = Declared { types, functions };
    let none = Open {
        scope: 0,
        parts: 0,
        arms: &[],
    };
    let mut slots = [none; PILE_ROOM];
    let mut pile = Pile::new(&mut slots);
    pile_bodies(&mut pile, functions);
    let mut count = 0;
    while let Some(o) = pile.pop() {
        if let Some((scope, rest)) = next(o) {
            let x = declared.begin(cursor, count, scope)?;
            nodes[count] = x;
            count += 1;
            let _ = pile.push(rest);
            let _ = pile.push(declared.opened(x, scope as u8));
        }
    }
    Ok(count)
}
