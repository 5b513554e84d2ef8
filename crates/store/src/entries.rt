ghost use Rattle.std.specs.Prelude.{◌≡◌, ◌<◌, length, if◌then◌else◌, nat_eq};
ghost use Rattle.store.specs.Scanning.{Listed};
ghost use Rattle.tables.specs.Listed.{entry_of};

use tables::listing::{Entry, Form};

// The entry of the type with the number `t`.
pub fn entry_at(entries: &[Entry], t: usize) -> Entry
    requires { t < length entries.now }
    ensures { result ≡ entry_of entries.now t }
{
    entries[t]
}

// One of the types that a table's entries list. That they list types and that it is one of them is known wherever it is. (Its number is a whole word: a narrower
// one leaves blanks in the record, and a record with blanks is slow to hand on by value.)
#[derive(Clone, Copy)]
pub struct Kind<'a> {
    entries: &'a [Entry],
    number: usize,
    ghost listed: { ∥ Listed entries.now ∥₁ },
    ghost known: { number < length entries.now },
}

// What a type is made of: earlier types of the same table.
#[derive(Clone, Copy)]
pub enum Shape<'a> {
    Number,
    Diamond,
    List(Kind<'a>),
    Tree(Kind<'a>),
    Pair(Kind<'a>, Kind<'a>),
    Sum(Kind<'a>, Kind<'a>),
}

impl<'a> Kind<'a> {
    ghost use Rattle.store.specs.Kinds.{Shaped, wide};

    // The type with the number `number`.
    pub fn new(entries: &'a [Entry], number: u8) -> Kind<'a>
        requires listed { Listed entries.now }
        requires known { number < length entries.now }
        ensures entries { result.entries.now ≡ entries.now }
        ensures number { result.number ≡ number }
    {
        let number = number as usize;
        Kind { entries, number }
    }

    // The width of its values in words.
    pub fn width(self) -> usize
        ensures { result ≡ wide self.entry }
    {
        entry_at(self.entries, self.number).width as usize
    }

    // An earlier type of the same table.
    fn earlier(self, number: u8) -> Kind<'a>
        requires { number < self.number }
        ensures entries { result.entries.now ≡ self.entry.entries.now }
        ensures number { result.number ≡ number }
    {
        Kind {
            entries: self.entries,
            number: number as usize,
        }
    }

    // What it is made of.
    pub fn shape(self) -> Shape<'a>
        ensures { Shaped self.entry result }
    {
        match entry_at(self.entries, self.number).form {
            Form::Number => Shape::Number,
            Form::Diamond => Shape::Diamond,
            Form::List(element) => Shape::List(self.earlier(element)),
            Form::Tree(label) => Shape::Tree(self.earlier(label)),
            Form::Pair(first, second) => Shape::Pair(self.earlier(first), self.earlier(second)),
            Form::Sum(first, second) => Shape::Sum(self.earlier(first), self.earlier(second)),
        }
    }
}

// The type of a sum's part, by the mark before it.
pub fn side<'a>(first: Kind<'a>, second: Kind<'a>, mark: u32) -> Kind<'a>
    ensures { result ≡ (if nat_eq mark 0 then first.entry else second.entry) }
{
    if mark == 0 { first } else { second }
}
