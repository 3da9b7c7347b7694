// The open segments as a set of 8,192 bits, handed on by value. A number past the last segment is in no set: to open or close it changes nothing.
#![tactic(auto)]

ghost use Rattle.std.specs.Prelude.{◌≡◌, ◌<◌, ◌≤◌, ◌&&◌, eqb, ltb, get_or, length, set};
ghost use Rattle.theory_graph.specs.Lists.{sum};
ghost use Rattle.call_open_set.specs.OpenSet.{digits, bits, is_open};

// The word w with the bit b on.
fn with_bit(w: u64, b: usize) -> u64
    requires { b < 64 }
    ensures { digits 64 result ≡ set (digits 64 w) b 1 }
{
    w | (1u64 << b)
}

// The word w with the bit b off.
fn without_bit(w: u64, b: usize) -> u64
    requires { b < 64 }
    ensures { digits 64 result ≡ set (digits 64 w) b 0 }
{
    let bit = 1u64 << b;
    (w | bit) ^ bit
}

// The set with segment s in it.
pub fn opened(held: [u64; 128], s: usize) -> [u64; 128]
    ensures { bits result ≡ set (bits held) s 1 }
{
    if s >= 8192 {
        return held;
    }
    let mut next = held;
    let word = s / 64;
    next[word] = with_bit(next[word], s % 64);
    next
}

// The set without segment s.
pub fn closed(held: [u64; 128], s: usize) -> [u64; 128]
    ensures { bits result ≡ set (bits held) s 0 }
{
    if s >= 8192 {
        return held;
    }
    let mut next = held;
    let place = s / 64;
    next[place] = without_bit(next[place], s % 64);
    next
}

// Internal: whether segment s is in a set that is only looked at, so that 1 KB is not copied for it.
pub fn contains(held: &[u64; 128], s: usize) -> bool
    requires { length held.now ≡ 128 }
    ensures { result ≡ is_open held.now s }
{
    if s >= 8192 {
        return false;
    }
    let i = s / 64;
    let b = s % 64;
    (held[i] >> b) % 2 == 1
}

// Whether segment s is in the set.
pub fn is_open(held: [u64; 128], s: usize) -> bool
    ensures { result ≡ is_open held s }
{
    contains(&held, s)
}

// Internal: the set of those of the first m segments whose entry in a starting table is 1. It is filled in place: no event changes it yet.
pub fn from_table(m: usize, start: &[u16]) -> [u64; 128]
    requires { (m ≤ 8192) × (m ≤ length start.now) }
    ensures { (length result ≡ 128) × (is_open result ≡ (λ s. ltb s m && eqb (get_or start.now s 0) 1)) }
{
    let mut held = [0u64; 128];
    // Of the segments before s those are in the set whose entry is 1, and no other is.
    for (s, &entry) in start[..m].iter().enumerate() {
        if entry == 1 {
            let word = s / 64;
            held[word] = with_bit(held[word], s % 64);
        }
    }
    held
}

// How many segments are in the set: the ones of each word, summed.
pub fn count(held: [u64; 128]) -> usize
    ensures { result ≡ sum (bits held) }
{
    held.iter().map(|word| word.count_ones() as usize).sum()
}
