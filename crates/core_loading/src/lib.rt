// One active node and one edge put into the words that the contraction takes, for the public call and for the replay's step alike.
#![tactic(auto)]

ghost use Rattle.std.specs.Prelude.{List, ℕ, ◌+◌, ◌*◌, ◌<◌, ◌≤◌, length};
ghost use Rattle.core_words.specs.Fields.{ACTIVE, MARK, node};
ghost use Rattle.core_loading.specs.Loading.{Entered, Entering, PutEdge};

use core_words::*;

// Internal: enters v, where it is not entered yet; the new count of different active nodes.
// Kept: the room written out and no `NodeRoom`, since callers of other crates prove it part by part: no plainer for them.
pub fn enter(work: &mut [u32], n: usize, d: usize, v: usize) -> usize
    requires { (n ≤ 65536) × (16 * n ≤ length work.old) × (v < n) ×
        ((S : List ℕ) × Entered n S d (node MARK work.old) (node ACTIVE work.old)) }
    ensures { Entering n d v work.old work.new result }
{
    if core_words::link(work, v, MARK).is_some() {
        return d;
    }
    core_words::put(work, d, ACTIVE, v);
    core_words::put_link(work, v, MARK, Some(d));
    d + 1
}

// Internal: writes edge j, from a to b, with the name c, into the half-edges.
// Kept: the ends and the name apart, since each caller has them from three tables: a struct is no plainer.
pub fn put_edge(work: &mut [u32], n: usize, j: usize, a: usize, b: usize, c: usize)
    requires { (16 * n + 6 * j + 6 ≤ length work.old) × (a < 65536) × (b < 65536) × (c < 65536) × (n ≤ 65536) × (j < 32768) }
    ensures { PutEdge n j a b c work.old work.new }
{
    core_words::put_half(work, n, 2 * j, TO, a);
    core_words::put_half(work, n, 2 * j + 1, TO, b);
    core_words::put_half(work, n, 2 * j, NAME, c);
}
