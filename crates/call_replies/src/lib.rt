// The replies of the small calls as C takes them: numbers, and structs of numbers. The exported calls of these hand on to the functions here. They stand apart
// from the archive, so that a wrong version of one is tried in a crate that takes seconds.
#![tactic(auto)]

ghost use Rattle.std.specs.Prelude.{◌≡◌, length, take};
ghost use Rattle.call_answers.specs.Reader.{first_or_none};
ghost use Rattle.call_check_number.specs.CheckNumber.{check_number_outcome, number_of_first};
ghost use Rattle.call_kinds.specs.Kinds.{kind_number, kind_of};
ghost use Rattle.call_sizes.specs.Sizes.{check_sizes, sizes_outcome};
ghost use Rattle.call_replies.specs.Replies.{sizes_of, check_number_of};
ghost use Rattle.call_replies.specs.Version.{version};

use call_sizes::{Refusal, Sizes};

// In each reply the code is 0 where the call is accepted, else the refusal's number; then place is its place and the other numbers are 0.
// Kept: the C interface takes a reply as a struct of numbers.
#[repr(C)]
#[derive(Drop)]
pub struct LumSizesReply {
    pub code: usize,
    pub place: usize,
    pub n: usize,
    pub m: usize,
    pub t: usize,
    pub k: usize,
}

#[repr(C)]
#[derive(Drop)]
pub struct LumCheckNumberReply {
    pub code: usize,
    pub place: usize,
    pub number: u32,
}

impl From<Result<Sizes, Refusal>> for LumSizesReply {
    // The struct says what the reply says.
    ghost from_gives = { λ reply given. sizes_of given ≡ sizes_outcome reply };

    fn from(reply: Result<Sizes, Refusal>) -> LumSizesReply {
        match reply {
            Ok(sizes) => LumSizesReply {
                code: 0,
                place: 0,
                n: sizes.n,
                m: sizes.m,
                t: sizes.t,
                k: sizes.k,
            },
            Err(refusal) => LumSizesReply {
                code: refusal.code(),
                place: refusal.place(),
                n: 0,
                m: 0,
                t: 0,
                k: 0,
            },
        }
    }
}

impl From<Result<u32, Refusal>> for LumCheckNumberReply {
    ghost from_gives = { λ reply given. check_number_of given ≡ check_number_outcome reply };

    fn from(reply: Result<u32, Refusal>) -> LumCheckNumberReply {
        match reply {
            Ok(number) => LumCheckNumberReply {
                code: 0,
                place: 0,
                number,
            },
            Err(refusal) => LumCheckNumberReply {
                code: refusal.code(),
                place: refusal.place(),
                number: 0,
            },
        }
    }
}

// Internal: the version of the exported calls.
pub fn version() -> u32
    ensures { result ≡ version }
{
    10
}

// Internal: the kind of an event, by its number.
pub fn kind(x: u16, n: usize) -> u32
    ensures { result ≡ kind_number (kind_of n x) }
{
    let kind = call_kinds::kind_of(x, n);
    call_kinds::kind_number(kind)
}

// Internal: the sizes' check.
pub fn sizes(n: usize, m: usize, t: usize, k: usize) -> LumSizesReply
    ensures { sizes_of result ≡ check_sizes n m t k }
{
    LumSizesReply::from(Sizes::check(n, m, t, k))
}

// Internal: the reader's call. The part that it hands back begins where the table does, so that its length says all.
pub fn answers(table: &[u8], t: usize) -> usize
    ensures value { result ≡ length (first_or_none table.now t) }
    ensures table_value { take result table.now ≡ first_or_none table.now t }
{
    let part = call_answers::answers(table, t);
    part.len()
}

// Internal: the check number of the table's first t bytes.
pub fn check_number(table: &[u8], t: usize) -> LumCheckNumberReply
    ensures { check_number_of result ≡ number_of_first table.now t }
{
    LumCheckNumberReply::from(call_check_number::check_number(table, t))
}
