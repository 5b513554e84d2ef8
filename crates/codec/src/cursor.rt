ghost use Rattle.std.specs.Prelude.{◌≡◌, ◌+◌, ◌-◌, ◌<◌, ◌≤◌, ◌&&◌, IfOk, MatchBool, ◌==◌, nat_le, nat_lt};
ghost use Rattle.codec.specs.Reading.{Finds, Stays, Takes, mark_at, number_at, within_at};

use crate::fault::{Fault, Part, Refusal};

// a reading place in lent bytes, and the part that its faults concern
#[derive(Drop)]
pub struct Cursor<'a> {
    bytes: &'a [u8],
    at: usize,
    part: Part,
}

impl<'a> Cursor<'a> {
    // A cursor at the first of the bytes.
    pub fn new(bytes: &'a [u8], part: Part) -> Self
        ensures bytes { result.bytes.now ≡ bytes.now }
        ensures place { result.at ≡ 0 }
        ensures part { result.part ≡ part }
    {
        Cursor { bytes, at: 0, part }
    }

    // The reading place.
    pub fn place(&self) -> usize
        ensures { result ≡ self.now.at }
    {
        self.at // how many bytes have been read
    }

    // A fault of the part that is read, at the place given.
    pub fn fault(&self, refusal: Refusal, place: usize) -> Fault
        ensures { result ≡ record { refusal = refusal; place = place; part = self.now.part } }
    {
        Fault {
            refusal,
            place,
            part: self.part,
        }
    }

    // The number at the reading place; the place moves past it.
    pub fn number(&mut self) -> Result<u32, Fault>
        ensures takes { Takes number_at self.old result self.new }
        ensures stays { Stays self.old result self.new }
    {
        let start = self.at;
        // (Not by `map_err`: nothing is known of what a closure that borrows the cursor answers, so the proof did not close.)
        match number_at(self.bytes, start) {
            Ok((value, end)) => {
                self.at = end;
                Ok(value)
            }
            Err(refusal) => Err(self.fault(refusal, start)),
        }
    }

    // A number from `low` up to below `high`.
    pub fn within(&mut self, low: u32, high: u32) -> Result<u32, Fault>
        ensures takes { Takes (within_at low high) self.old result self.new }
        ensures stays { Stays self.old result self.new }
        ensures bound { IfOk result (λ n. (low ≤ n) × (n < high)) }
    {
        let start = self.at;
        let n = self.number()?;
        if !in_range(n, low, high) {
            self.at = start;
            return Err(self.fault(Refusal::OutOfRange, start));
        }
        Ok(n)
    }

    // A mark, 0 or 1: whether it is 1.
    pub fn mark(&mut self) -> Result<bool, Fault>
        ensures takes { Takes mark_at self.old result self.new }
        ensures stays { Stays self.old result self.new }
    {
        Ok(self.within(0, 2)? == 1)
    }
}

// Whether a number is from `low` up to below `high`.
fn in_range(n: u32, low: u32, high: u32) -> bool
    ensures { result ≡ (nat_le low n && nat_lt n high) }
{
    (low..high).contains(&n)
}

// Whether this byte says that another follows: its top bit is set.
fn continues(byte: u8) -> bool
    ensures { MatchBool result (128 ≤ byte) (byte < 128) }
{
    byte >= 128
}

// Whether this can be the byte after so many others: the first four groups have 28 of a number's 32 bits, so a fifth is at most 15.
fn fits(others: usize, byte: u8) -> bool
    ensures { MatchBool result (4 ≤ others → byte ≤ 15) ((4 ≤ others) × (15 < byte)) }
{
    others < 4 || byte <= 15
}

// The number that begins at `start`, and the place after it.
pub fn number_at(bytes: &[u8], start: usize) -> Result<(u32, usize), Refusal>
    ensures { Finds bytes.now start result }
{
    let Some(rest) = bytes.get(start..) else {
        return Err(Refusal::Ended);
    };
    let mut value = 0;
    let mut scale = 1;
    for (k, &byte) in rest.iter().enumerate() {
        let group = byte as u32;
        if !fits(k, byte) {
            return Err(Refusal::Overlong);
        }
        if !continues(byte) {
            return Ok((value + group * scale, start + k + 1));
        }
        value += (group - 128) * scale;
        scale *= 128;
    }
    Err(Refusal::Ended)
}
