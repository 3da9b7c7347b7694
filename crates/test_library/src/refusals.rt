// What a call replies: what it returns, or a refusal.
use std::fmt;

// A refusal's number and its place.
// Kept: the number is no enum, which is no plainer: a call may reply any number, and a wrong one is to be printed and counted as it is.
#[derive(Clone, Copy, PartialEq, Eq)]
pub struct Refusal {
    pub code: usize,
    pub place: usize,
}

// The numbers of the refusals: by a size; a table that is shorter than it must be; the share; an end; an event of no kind, or that names what is not there; one
// that opens an open segment; one that closes a closed one; an active entry; a starting entry; a table that is longer than its size.
pub const SIZE: usize = 1;

pub const SHORT: usize = 2;

pub const SHARE: usize = 3;

pub const END: usize = 4;

pub const KIND: usize = 5;

pub const OPENS: usize = 6;

pub const CLOSES: usize = 7;

pub const ENTRY: usize = 8;

pub const START: usize = 11;

pub const LONG: usize = 12;

impl Refusal {
    // Internal: with this number, of the call as a whole.
    pub fn of(code: usize) -> Refusal {
        Refusal { code, place: 0 }
    }
}

impl fmt::Display for Refusal {
    fn fmt<W: fmt::Write>(&self, f: &mut fmt::Formatter<W>) -> fmt::Result {
        write!(f, "{} at {}", self.code, self.place)
    }
}

// Internal: the refusal of a reply as it is printed: 0 at 0 where there is none.
pub fn printed<T>(reply: &Result<T, Refusal>) -> Refusal {
    match reply {
        Ok(_) => Refusal::of(0),
        Err(refusal) => *refusal,
    }
}

// Internal: the reply that stands in a vector as a refusal, 0 at 0 where there is none, and what is returned, zeros where it is refused. Where the numbers are no
// such reply it is one that no call gives: by 0 at a place other than 0, or by 99, which is no refusal's number, where a refusal returns other numbers.
pub fn read<T: Copy + PartialEq + Default>(refusal: Refusal, returned: T) -> Result<T, Refusal> {
    if refusal == Refusal::of(0) {
        return Ok(returned);
    }
    if refusal.code > 0 && returned != T::default() {
        return Err(Refusal::of(99));
    }
    Err(refusal)
}
