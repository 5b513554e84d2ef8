ghost use Rattle.std.specs.Prelude.{◌≡◌, Some};
ghost use Rattle.codec.specs.Faults.{explanation, fault_text, number_of, part_name};

use std::error::Error;
use std::fmt;

// what a refusal is about: bytes read as a table or as a value, the typing of a table, or the call itself
#[derive(Clone, Copy, PartialEq, Eq, Debug)]
pub enum Part {
    Table,
    Value,
    Judgement,
    Programmer,
}

impl fmt::Display for Part {
    ghost output = { λ part. Some (part_name part) };

    fn fmt<W: fmt::Write>(&self, f: &mut fmt::Formatter<W>) -> fmt::Result {
        f.write_str(match self {
            Part::Table => "table",
            Part::Value => "value",
            Part::Judgement => "judgement",
            Part::Programmer => "programmer",
        })
    }
}

// why a call is refused, in the order of the refusals' numbers
#[derive(Clone, Copy, PartialEq, Eq, Debug)]
pub enum Refusal {
    // the bytes end in or before a number
    Ended = 1,
    // a number's fifth byte is over 15
    Overlong,
    // a count, kind, operator, mark or reference is out of its range
    OutOfRange,
    // a type entry repeats an earlier one
    EntryRepeated,
    // a type is too wide
    TooWide,
    // one expression more than a table may have
    TooManyExpressions,
    // one variable more than may be in scope
    TooManyVariables,
    // bytes are left over
    BytesOver,
    // an expression does not have the type that it must have
    TypeFault,
    // a variable that holds cells is used twice
    Sharing,
    NoSuchShelf,
    NoSuchTypeOrFunction,
    // the shelf that a value is for holds one
    ShelfFilled,
    // the shelf that a value is wanted from holds none
    ShelfEmpty,
    // a value takes more cells than are spare
    CellsLacking,
    // a run stands already
    RunStands,
    // a ticket of another programmer, or of a run that stands no longer
    TicketUnfit,
    // the area is too short for a value's bytes
    AreaTooShort,
    // a wrong count or type of arguments, or one shelf named twice
    ArgumentsUnfit,
    // a table is adopted while a shelf is filled
    ShelfFilledAtAdopt,
}

impl Refusal {
    // The number by which the refusal goes.
    pub fn number(self) -> u8
        ensures { result ≡ number_of self }
    {
        self as u8
    }
}

impl fmt::Display for Refusal {
    ghost output = { λ refusal. Some (explanation refusal) };

    fn fmt<W: fmt::Write>(&self, f: &mut fmt::Formatter<W>) -> fmt::Result {
        f.write_str(match self {
            Refusal::Ended => "the bytes end in or before a number",
            Refusal::Overlong => "a number's fifth byte is over 15",
            Refusal::OutOfRange => "a count, kind, operator, mark or reference is out of range",
            Refusal::EntryRepeated => "a type is listed twice",
            Refusal::TooWide => "a type is too wide",
            Refusal::TooManyExpressions => "more than 512 expressions",
            Refusal::TooManyVariables => "more than 32 variables in scope",
            Refusal::BytesOver => "bytes are left over",
            Refusal::TypeFault => "the types do not fit",
            Refusal::Sharing => "a variable that holds cells is used twice",
            Refusal::NoSuchShelf => "there is no such shelf",
            Refusal::NoSuchTypeOrFunction => "there is no such type or function",
            Refusal::ShelfFilled => "the shelf is filled",
            Refusal::ShelfEmpty => "the shelf is empty",
            Refusal::CellsLacking => "too few cells are spare",
            Refusal::RunStands => "a run stands",
            Refusal::TicketUnfit => "the ticket is of another box or of no standing run",
            Refusal::AreaTooShort => "the area is too short",
            Refusal::ArgumentsUnfit => "the arguments do not fit the function",
            Refusal::ShelfFilledAtAdopt => "a shelf is filled",
        })
    }
}

impl Error for Refusal {}

// a refusal, the place that it is about, and the part that it concerns
#[derive(Clone, Copy, PartialEq, Eq, Debug)]
pub struct Fault {
    pub refusal: Refusal,
    pub place: usize,
    pub part: Part,
}

impl Fault {
    // What a caller can go by: the refusal's number, and the place.
    pub fn number_and_place(self) -> (u8, usize)
        ensures { result ≡ (number_of self.refusal, self.place) }
    {
        (self.refusal.number(), self.place)
    }
}

impl fmt::Display for Fault {
    ghost output = { λ fault. Some (fault_text fault) };

    fn fmt<W: fmt::Write>(&self, f: &mut fmt::Formatter<W>) -> fmt::Result {
        let (number, place) = self.number_and_place();
        write!(
            f,
            "refused {number} at {place} ({}): {}",
            self.part, self.refusal
        )
    }
}

impl Error for Fault {}
