// The sizes of a replay or a contraction, with their limits and their check; and what refusals share: each with its number and its place, the lengths of tables,
// the search for a bad end and for a bad starting entry.
#![tactic(auto)]

ghost use Rattle.std.specs.Prelude.{◌≡◌, ◌≤◌, [], ◌∷◌, cond, length, ltb, nat_lt, position};
ghost use Rattle.std.specs.List.{list_any};
ghost use Rattle.call_sizes.specs.Refusal.{bad_ends, bad_start, below_rows, first_fault, first_of, row, seek};
ghost use Rattle.call_sizes.specs.Numbers.{number_of, numbers_of, place_of, refused_by};
ghost use Rattle.call_sizes.specs.Sizes.{sizes_outcome, check_sizes, size_faults};

// Why a call is refused: the first fault of what it is lent. The place is that of a segment, an edge, an event or an entry, where one is named.
#[derive(Clone, Copy, Debug, PartialEq, Eq)]
pub enum Refusal {
    Size,
    ShortTable,
    Share,
    End(usize),
    NamesNothing(usize),
    OpensOpen(usize),
    ClosesClosed(usize),
    Entry(usize),
    InputLength,
    ProgramLimit,
    Start(usize),
    LongTable,
}

impl Refusal {
    // The number of a refusal in the documents' tables.
    pub fn code(self) -> usize
        ensures { result ≡ number_of self }
    {
        match self {
            Refusal::Size => 1,
            Refusal::ShortTable => 2,
            Refusal::Share => 3,
            Refusal::End(_) => 4,
            Refusal::NamesNothing(_) => 5,
            Refusal::OpensOpen(_) => 6,
            Refusal::ClosesClosed(_) => 7,
            Refusal::Entry(_) => 8,
            Refusal::InputLength => 9,
            Refusal::ProgramLimit => 10,
            Refusal::Start(_) => 11,
            Refusal::LongTable => 12,
        }
    }

    // Its place, 0 where none is named.
    pub fn place(self) -> usize
        ensures { result ≡ place_of self }
    {
        match self {
            Refusal::End(place)
            | Refusal::NamesNothing(place)
            | Refusal::OpensOpen(place)
            | Refusal::ClosesClosed(place)
            | Refusal::Entry(place)
            | Refusal::Start(place) => place,
            _ => 0,
        }
    }
}

// The sizes of a replay (n junctions, m segments, t events) or of a contraction (n nodes, m edges, k active entries), within the limits.
#[derive(Clone, Copy, Debug, PartialEq, Eq)]
pub struct Sizes {
    pub n: usize,
    pub m: usize,
    pub t: usize,
    pub k: usize,
}

impl Sizes {
    pub const JUNCTIONS: usize = 4096;

    pub const SEGMENTS: usize = 8192;

    pub const EVENTS: usize = 4096;

    pub const ENTRIES: usize = 8192;

    // Checks raw numbers. A replay has no active entries and a contraction no events: 0 there.
    pub fn check(n: usize, m: usize, t: usize, k: usize) -> Result<Sizes, Refusal>
        ensures outcome { sizes_outcome result ≡ check_sizes n m t k }
        ensures refused { refused_by result ≡ first_fault (size_faults n m t k) }
    {
        if n > Sizes::JUNCTIONS {
            return Err(Refusal::Size);
        }
        if m > Sizes::SEGMENTS {
            return Err(Refusal::Size);
        }
        if t > Sizes::EVENTS {
            return Err(Refusal::Size);
        }
        if k > Sizes::ENTRIES {
            return Err(Refusal::Size);
        }
        Ok(Sizes { n, m, t, k })
    }
}

// Internal: whether of pairs of numbers a first one is below its second. So it tells whether they are refused by a number, whichever it is (RefusalLaws:
// `below_any`).
pub fn any_below(pairs: &[(usize, usize)]) -> bool
    ensures { result ≡ list_any (λ p. nat_lt p.0 p.1) pairs.now }
{
    pairs.iter().any(|&(first, second)| first < second)
}

// Internal: this refusal, where of pairs of numbers a first one is below its second. By lengths and least lengths it is that of a short table.
pub fn check_pairs(pairs: &[(usize, usize)], refusal: Refusal) -> Result<(), Refusal>
    ensures value { refused_by result ≡ cond (list_any (λ p. nat_lt p.0 p.1) pairs.now) (numbers_of refusal) (0, 0) }
    ensures rows { place_of refusal ≡ 0 → refused_by result ≡ first_fault (below_rows (number_of refusal) pairs.now) }
{
    if any_below(pairs) {
        return Err(refusal);
    }
    Ok(())
}

// The first segment or edge with an end not below n.
fn first_bad_end(n: usize, m: usize, from: &[u16], to: &[u16]) -> Option<usize>
    requires { (m ≤ length from.now) × (m ≤ length to.now) }
    ensures { result ≡ first_of (bad_ends n from.now to.now) m }
{
    // No segment before s has such an end.
    for s in 0..m {
        if n <= from[s] as usize || n <= to[s] as usize {
            return Some(s);
        }
    }
    None
}

// Internal: refusal 4, at the first segment or edge with an end not below n.
pub fn check_ends(n: usize, m: usize, from: &[u16], to: &[u16]) -> Result<(), Refusal>
    requires { (m ≤ length from.now) × (m ≤ length to.now) }
    ensures { let s = seek (bad_ends n from.now to.now) 0 m in refused_by result ≡ first_fault (row (ltb s m) 4 s ∷ []) }
{
    match first_bad_end(n, m, from, to) {
        Some(s) => Err(Refusal::End(s)),
        None => Ok(()),
    }
}

// The first segment whose starting entry is above 1.
fn first_bad_start(start: &[u16]) -> Option<usize>
    ensures { result ≡ position (λ entry. nat_lt 1 entry) start.now }
{
    start.iter().position(|&entry| entry > 1)
}

// Internal: refusal 11, at the first segment whose starting entry is above 1.
pub fn check_start(start: &[u16]) -> Result<(), Refusal>
    ensures { let s = seek (bad_start start.now) 0 (length start.now) in refused_by result ≡ first_fault (row (ltb s (length start.now)) 11 s ∷ []) }
{
    match first_bad_start(start) {
        Some(s) => Err(Refusal::Start(s)),
        None => Ok(()),
    }
}
