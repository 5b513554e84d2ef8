ghost use Rattle.std.specs.Prelude.{◌≡◌, ◌≤◌, length, take};
ghost use Rattle.tables.specs.declared.listing.Kind.TheVariants.{Guard};

// a table has at most so many types
pub const MOST_TYPES: usize = 64;

// What the type of an entry is, by the numbers of the earlier entries that it is made of. The forms are in the order of their numbers.
#[derive(Clone, Copy, Debug, PartialEq, Eq)]
pub enum Form {
    Number,
    Diamond,
    List(u8),
    Tree(u8),
    Pair(u8, u8),
    Sum(u8, u8),
}

// an entry of a table's types: its form, the width of its type's values in words, and whether the type is heap-free
#[derive(Clone, Copy)]
pub struct Entry {
    pub form: Form,
    pub width: u8,
    pub heap_free: bool,
}

// a function's parameter types and result type, by their entries' numbers
#[derive(Clone, Copy, Default)]
pub struct Signature {
    pub params: [u8; 6],
    pub arity: usize,
    pub result: u8,
}

// the sixteen kinds of expressions, in the order of their numbers
#[derive(Clone, Copy)]
pub enum Kind {
    Variable,
    Call,
    Constant,
    Infix,
    Guard,
    MakePair,
    SplitPair,
    MakeLeft,
    MakeRight,
    CaseSum,
    EmptyList,
    MakeCons,
    CaseList,
    MakeLeaf,
    MakeNode,
    CaseTree,
}

// an expression as it stands in a table: its kind and its number (0 where it has none)
#[derive(Clone, Copy)]
pub struct Node {
    pub kind: Kind,
    pub number: u32,
}

// a table as it is read and not yet judged: so many types, functions, and expressions in reading order
#[derive(Clone, Copy)]
pub struct Listing {
    pub entries: [Entry; MOST_TYPES],
    pub types: usize,
    pub signatures: [Signature; 32],
    pub functions: usize,
    pub nodes: [Node; 512],
    pub expressions: usize,
}

impl Listing {
    // The entries of its types, by number.
    pub fn type_entries(&self) -> &[Entry]
        ensures are { result.now ≡ take self.now.types self.now.entries }
        ensures few { length result.now ≤ 64 }
    {
        &self.entries[..self.types.min(MOST_TYPES)]
    }
}

// What stands where there is no expression.
pub fn blank() -> Node
    ensures { result ≡ record { kind = Guard; number = 0 } }
{
    Node {
        kind: Kind::Guard,
        number: 0,
    }
}
