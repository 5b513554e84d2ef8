//! Code: an admitted table made ready to run. Each expression has its operation, with what it needs to know of its types and of where its variables lie, so that a
//! machine looks nothing up but the expression itself.

#![tactic(auto)]

ghost use Rattle.std.specs.Prelude.{◌≡◌, ◌%◌};
ghost use Rattle.code.specs.Nodes.{node_at, start_at};

/// How many expressions a table has at most, and how many functions.
pub const EXPRESSIONS: usize = 512;

pub const FUNCTIONS: usize = 32;

/// The five infix operations on N.
#[derive(Clone, Copy)]
pub enum Infix {
    Plus,
    Minus,
    Times,
    Equal,
    AtMost,
}

/// What an expression does once its parts are worked out.
#[derive(Clone, Copy)]
pub enum Op {
    /// Gives the variable that lies at a place above the body's first word, so many words wide.
    Variable { place: u32, width: u32 },
    /// Enters the body whose outermost expression has the number.
    Call(u32),
    /// Gives the word.
    Constant(u32),
    Apply(Infix),
    Guard,
    /// Gives the pair of its parts, so many words wide.
    Pair(u32),
    Split,
    /// Gives the mark and the part, which is so many words wide: left, right or a leaf.
    Tag { mark: u32, width: u32 },
    /// Chooses by a sum, whose left and right parts are so wide.
    CaseSum { left: u32, right: u32 },
    Empty,
    /// Builds a list's cell, whose element is so wide.
    Cons(u32),
    CaseList(u32),
    /// Builds a node, whose label is so wide.
    Fork(u32),
    CaseTree(u32),
}

/// An expression: its operation, the words that it stands over above its body's first, the number of its first arm (of what follows its parts), and the number of
/// the expression after it.
#[derive(Clone, Copy)]
pub struct Node {
    pub op: Op,
    pub over: u32,
    pub arms: u32,
    pub end: u32,
}

/// What comes of an operation: a value, an arm, or the body whose outermost expression has the number.
#[derive(Clone, Copy)]
pub enum Next {
    Value,
    First,
    Second,
    Body(u32),
}

/// The expressions by number, and for each function the number of its body's outermost expression.
#[derive(Clone, Copy)]
pub struct Code {
    pub nodes: [Node; EXPRESSIONS],
    pub starts: [u32; FUNCTIONS],
}

impl Code {
    /// The expression with the number; expressions are numbered below 512.
    pub fn node(&self, at: u32) -> Node
        ensures { result ≡ node_at self.now at }
    {
        self.nodes[at as usize % EXPRESSIONS]
    }

    /// Where the function's body begins; functions are numbered below 32.
    pub fn start(&self, function: u32) -> u32
        ensures { result ≡ start_at self.now function }
    {
        self.starts[function as usize % FUNCTIONS]
    }
}
