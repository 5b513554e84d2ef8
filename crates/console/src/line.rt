//! One line of a script.

ghost use Rattle.std.specs.Prelude.{◌≡◌, ℕ, ◌+◌, ◌-◌, ◌*◌, ◌^◌, ◌<◌, ◌≤◌};
ghost use Rattle.std.specs.Option.{ok_or};
ghost use Rattle.console.specs.Choices.{block_words};
ghost use Rattle.console.specs.Decimal.{number_of, with_figure};

use programmer::play::Call;
use std::alloc::{AllocError, AllocFailed, Global};
use std::fmt;

/// Which pool the programmer is made over; `words` is the length of a block, `most` the cells of a reserve.
#[derive(Clone, Copy)]
pub enum PoolChoice {
    Own,
    Block { words: u32 },
    Pair { words: u32 },
    Reserve { most: u32 },
    ReserveBlock { most: u32, words: u32 },
}

impl PoolChoice {
    /// How many words the pool's block has; without one none.
    pub fn words(self) -> u32
        ensures { result ≡ block_words self }
    {
        match self {
            PoolChoice::Block { words }
            | PoolChoice::Pair { words }
            | PoolChoice::ReserveBlock { most: _, words } => words,
            PoolChoice::Own | PoolChoice::Reserve { most: _ } => 0,
        }
    }
}

/// A call as a line asks for it.
#[derive(Drop)]
pub enum Asked {
    Adopt {
        bytes: Vec<u8>,
    },
    Put {
        shelf: u32,
        type_number: u32,
        bytes: Vec<u8>,
    },
    Show {
        shelf: u32,
        room: u32,
    },
    Spare,
    Empty {
        shelf: u32,
    },
}

impl<'a> From<&'a Asked> for Call<'a> {
    fn from(asked: &'a Asked) -> Self {
        match asked {
            Asked::Adopt { bytes } => Call::Adopt {
                bytes: bytes.as_slice(),
            },
            Asked::Put {
                shelf,
                type_number,
                bytes,
            } => Call::Put {
                shelf: *shelf,
                type_number: *type_number,
                bytes: bytes.as_slice(),
            },
            Asked::Show { shelf, room } => Call::Show {
                shelf: *shelf,
                room: *room as usize,
            },
            Asked::Spare => Call::Spare,
            Asked::Empty { shelf } => Call::Empty { shelf: *shelf },
        }
    }
}

/// What a line asks for.
#[derive(Drop)]
pub enum Line {
    Pool(PoolChoice),
    BoxNumber(u32),
    Call(Asked),
}

/// Why a line stops the program.
#[derive(Clone, Copy)]
pub enum Mistake {
    NotACall,
    NotYet,
    NotANumber,
    OverAByte,
    TooLate,
    NoMemory,
}

impl From<AllocError> for Mistake {
    fn from(_e: AllocError) -> Self {
        Mistake::NoMemory
    }
}

impl<T: Drop> From<AllocFailed<T>> for Mistake {
    fn from(_e: AllocFailed<T>) -> Self {
        Mistake::NoMemory
    }
}

impl fmt::Display for Mistake {
    fn fmt<W: fmt::Write>(&self, f: &mut fmt::Formatter<W>) -> fmt::Result {
        let words = match *self {
            Mistake::NotACall => "not a call",
            Mistake::NotYet => "not a call yet",
            Mistake::NotANumber => "a decimal number of 32 bits is wanted",
            Mistake::OverAByte => "a byte is at most 255",
            Mistake::TooLate => "the pool and the box are set before the first call",
            Mistake::NoMemory => "out of memory",
        };
        f.write_str(words)
    }
}

// A number with one figure more behind it: none where the character is no figure, or 32 bits do not hold it.
fn appended(n: u32, figure: u8) -> Option<u32>
    ensures { result ≡ with_figure n figure }
{
    let value = char::from(figure).to_digit(10)?;
    n.checked_mul(10)?.checked_add(value)
}

/// The number that decimal figures spell: none where there is no figure, a character is none, or 32 bits do not hold it. (`parse` would take a leading `+`.)
pub fn decimal(figures: &[u8]) -> Option<u32>
    ensures { result ≡ number_of figures.now }
{
    if figures.is_empty() {
        return None;
    }
    let mut n = 0;
    for figure in figures {
        n = appended(n, *figure)?;
    }
    Some(n)
}

// A word as a number.
fn number(word: &str) -> Result<u32, Mistake>
    ensures { result ≡ ok_or (number_of word.now) Mistake.NotANumber }
{
    decimal(word.as_bytes()).ok_or(Mistake::NotANumber)
}

// A word as a byte.
fn byte(word: &str) -> Result<u8, Mistake> {
    u8::try_from(number(word)?).map_err(|_| Mistake::OverAByte)
}

// The words as bytes.
fn bytes(heap: Global, words: &[&str]) -> Result<Vec<u8>, Mistake> {
    words.iter().map(|word| byte(word)).try_collect(heap)
}

// The pool that the words after `pool` choose.
fn pool(words: &[&str]) -> Result<PoolChoice, Mistake> {
    match words {
        ["own"] => Ok(PoolChoice::Own),
        ["block", words] => Ok(PoolChoice::Block {
            words: number(words)?,
        }),
        ["pair", words] => Ok(PoolChoice::Pair {
            words: number(words)?,
        }),
        ["reserve", most] => Ok(PoolChoice::Reserve {
            most: number(most)?,
        }),
        ["reserve-block", most, words] => Ok(PoolChoice::ReserveBlock {
            most: number(most)?,
            words: number(words)?,
        }),
        _ => Err(Mistake::NotACall),
    }
}

// The call that the words ask for.
fn call(heap: Global, words: &[&str]) -> Result<Asked, Mistake> {
    match words {
        ["adopt", table @ ..] => Ok(Asked::Adopt {
            bytes: bytes(heap, table)?,
        }),
        ["put", shelf, type_number, value @ ..] => Ok(Asked::Put {
            shelf: number(shelf)?,
            type_number: number(type_number)?,
            bytes: bytes(heap, value)?,
        }),
        ["show", shelf, room] => Ok(Asked::Show {
            shelf: number(shelf)?,
            room: number(room)?,
        }),
        ["spare"] => Ok(Asked::Spare),
        ["empty", shelf] => Ok(Asked::Empty {
            shelf: number(shelf)?,
        }),
        ["start" | "carry" | "collect" | "abandon" | "discard", ..] => Err(Mistake::NotYet),
        _ => Err(Mistake::NotACall),
    }
}

/// What a line asks for: nothing where it is blank or a comment.
pub fn understood(heap: Global, text: &str) -> Result<Option<Line>, Mistake> {
    let words: Vec<&str> = text.split_whitespace().collect(heap)?;
    let line = match words.as_slice() {
        [] => return Ok(None),
        [first, ..] if first.starts_with("#") => return Ok(None),
        ["pool", choice @ ..] => Line::Pool(pool(choice)?),
        ["box", n] => Line::BoxNumber(number(n)?),
        all => Line::Call(call(heap, all)?),
    };
    Ok(Some(line))
}
