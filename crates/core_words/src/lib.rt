// The words of a graph that is contracted: sixteen for each node, told by the names of fields, then three for each half-edge. They are read, set and cleared
// here, and what is proved of the crates above is said of these fields. In order: the fields' names, one word, fields of nodes, fields of half-edges, fields that
// name something or nothing, clearing.
#![tactic(auto)]

ghost use Rattle.std.specs.Prelude.{◌≡◌, [], ◌∷◌, ◌+◌, ◌*◌, ◌<◌, ◌≤◌, get_or, length, replicate};
ghost use Rattle.theory_graph.specs.Lists.{over};
ghost use Rattle.core_words.specs.Clearing.{Cleared};
ghost use Rattle.core_words.specs.Fields.{node, half, Put, PutHalf};
ghost use Rattle.core_words.specs.Links.{link_word};

// Internal: fields of a node. Some have a second use, with a name of its own. specs/Fields says what each holds.
// Kept: constants and no enum, since a field is an offset in the lent words (fixed memory) and two names share one, which two variants cannot.
pub const MARK: usize = 0;

pub const MAPPED: usize = 0;

pub const ACTIVE: usize = 1;

pub const HEAD: usize = 2;

pub const CHILD: usize = 2;

pub const ORDER: usize = 3;

pub const POSITION: usize = 4;

pub const LOWER: usize = 4;

pub const PARENT: usize = 5;

pub const UPPER: usize = 5;

pub const TOP: usize = 6;

pub const LIVE: usize = 7;

pub const BRANCH: usize = 8;

pub const SIBLING: usize = 8;

pub const OTHER: usize = 9;

pub const ABOVE: usize = 9;

pub const NUMBER: usize = 10;

pub const MEMBER: usize = 11;

pub const ROOT: usize = 12;

pub const EDGE: usize = 13;

pub const LEAST: usize = 14;

pub const NAMED: usize = 15;

// Internal: fields of a half-edge.
pub const TO: usize = 0;

pub const NEXT: usize = 1;

pub const NAME: usize = 2;

// Internal: the word at place i.
pub fn word(work: &[u32], i: usize) -> usize
    requires { i < length work.now }
    ensures { (result ≡ get_or work.now i 0) × (result < 4294967296) }
{
    work[i] as usize
}

// Internal: field k of node v.
#[tactic(auto, unfolding(crate::specs::Fields::node))]
pub fn get(work: &[u32], v: usize, k: usize) -> usize
    requires { 16 * v + k < length work.now }
    ensures { (result ≡ node k work.now v) × (result < 4294967296) }
{
    work[16 * v + k] as usize
}

// Internal: sets field k of node v to x.
pub fn put(work: &mut [u32], v: usize, k: usize, x: usize)
    requires { (16 * v + k < length work.old) × (x < 4294967296) × (k < 16) }
    ensures { Put k v x work.old work.new }
{
    work[16 * v + k] = x as u32;
}

// Internal: field k of half-edge h, where there are n nodes.
#[tactic(auto, unfolding(crate::specs::Fields::half))]
pub fn get_half(work: &[u32], n: usize, h: usize, k: usize) -> usize
    requires { 16 * n + 3 * h + k < length work.now }
    ensures { (result ≡ half n k work.now h) × (result < 4294967296) }
{
    work[16 * n + 3 * h + k] as usize
}

// Internal: sets field k of half-edge h to x.
pub fn put_half(work: &mut [u32], n: usize, h: usize, k: usize, x: usize)
    requires { (16 * n + 3 * h + k < length work.old) × (x < 4294967296) × (k < 3) }
    ensures { PutHalf n k h x work.old work.new }
{
    work[16 * n + 3 * h + k] = x as u32;
}

// Internal: what field k of node v names. The word of a field that names something or nothing is 0 for nothing, else one more than what it names.
pub fn link(work: &[u32], v: usize, k: usize) -> Option<usize>
    requires { 16 * v + k < length work.now }
    ensures { (link_word result ≡ node k work.now v) × (link_word result < 4294967296) }
{
    get(work, v, k).checked_sub(1)
}

// The word that names x.
fn word_of(x: Option<usize>) -> usize
    requires { link_word x < 4294967296 }
    ensures { result ≡ link_word x }
{
    x.map_or(0, |x| x + 1)
}

// Internal: field k of node v names x from now on.
pub fn put_link(work: &mut [u32], v: usize, k: usize, x: Option<usize>)
    requires { (16 * v + k < length work.old) × (link_word x < 4294967296) × (k < 16) }
    ensures { Put k v (link_word x) work.old work.new }
{
    put(work, v, k, word_of(x));
}

// Internal: what field k of half-edge h names, where there are n nodes.
pub fn half_link(work: &[u32], n: usize, h: usize, k: usize) -> Option<usize>
    requires { 16 * n + 3 * h + k < length work.now }
    ensures { (link_word result ≡ half n k work.now h) × (link_word result < 4294967296) }
{
    get_half(work, n, h, k).checked_sub(1)
}

// Internal: field k of half-edge h names x from now on.
pub fn put_half_link(work: &mut [u32], n: usize, h: usize, k: usize, x: Option<usize>)
    requires { (16 * n + 3 * h + k < length work.old) × (link_word x < 4294967296) × (k < 3) }
    ensures { PutHalf n k h (link_word x) work.old work.new }
{
    put_half(work, n, h, k, word_of(x));
}

// Internal: sets field k of the first h of n nodes to 0.
// Kept: the room written out and no `NodeRoom`, since callers of other crates prove it part by part: no plainer for them.
pub fn clear_field(work: &mut [u32], n: usize, k: usize, h: usize)
    requires { (16 * n ≤ length work.old) × (n ≤ 65536) × (h ≤ n) × (k < 16) }
    ensures { Cleared (k ∷ []) n h work.old work.new }
{
    // Field k of the nodes below v is 0.
    for v in 0..h {
        put(work, v, k, 0);
    }
}

// Internal: sets the first count words to 0.
pub fn clear(work: &mut [u32], count: usize)
    requires { count ≤ length work.old }
    ensures { work.new ≡ over (replicate count 0) work.old }
{
    // The first i words are 0, and the others are as they were.
    for i in 0..count {
        work[i] = 0;
    }
}
