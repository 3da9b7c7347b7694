// The roads that are open at the start and of which no event names a segment, loaded as edges in one pass over the roads' names.
ghost use Rattle.std.specs.Prelude.{◌+◌, length};
ghost use Rattle.replay_step.specs.Load.{AddedBy};
ghost use Rattle.replay_start.specs.Start.{ClearReady, Cleared, LoadReady, fixed, segment};

use replay_step::tag::Tag;

// Event i: the count of the road that it names becomes 0.
pub(crate) fn clear_event(from: usize, i: usize, counts: usize, work: &mut [u32])
    requires { ClearReady from (i + 1) counts work.old }
    ensures { Cleared from i (i + 1) counts work.old work.new }
{
    let tag = Tag {
        word: work[from + 3 * i] as usize,
    };
    if tag.word == 0 {
        return;
    }
    let key = tag.key();
    work[counts + key] = 0;
}

// The counts of the roads that the t events name, whose words stand from `from` on, become 0. A road that none of them names has as many open segments at the
// end as at the start, so that what is left tells the roads that are open at the start and not named.
pub(crate) fn clear_named(from: usize, t: usize, counts: usize, work: &mut [u32])
    requires { ClearReady from t counts work.old }
    ensures { Cleared from 0 t counts work.old work.new }
{
    // The roads of the first i events have no count.
    for i in 0..t {
        clear_event(from, i, counts, work);
    }
}

// Road j: where its count is not 0, its edge is loaded as the k-th, with the name j. The edges then.
// Kept: the new form is no plainer: with `a`, `b` and `counts` in one struct each clause reads `roads.entry.a.now` where it reads `a.now`.
pub(crate) fn load_road(
    n: usize,
    s: usize,
    a: &[u16],
    b: &[u16],
    counts: usize,
    work: &mut [u32],
    j: usize,
    k: usize,
) -> usize
    requires { LoadReady n s a.now b.now counts j (j + 1) k work.old }
    ensures { AddedBy s n (fixed counts work.old) (segment a.now b.now) j (j + 1) k
        work.old work.new result }
{
    if work[counts + j] == 0 {
        return k;
    }
    let x = a[j] as usize;
    let y = b[j] as usize;
    core_loading::put_edge(&mut work[s..], n, k, x, y, j);
    k + 1
}

// All roads, where no edge is loaded yet. The number of a segment that is not the name of its road has no count.
pub(crate) fn load_roads(
    n: usize,
    s: usize,
    a: &[u16],
    b: &[u16],
    counts: usize,
    work: &mut [u32],
) -> usize
    requires { LoadReady n s a.now b.now counts 0 (length a.now) 0 work.old }
    ensures { AddedBy s n (fixed counts work.old) (segment a.now b.now) 0 (length a.now) 0
        work.old work.new result }
{
    let mut k: usize = 0;
    // Of the roads with a name before j those that have a count are loaded.
    for j in 0..a.len() {
        k = load_road(n, s, a, b, counts, work, j, k);
    }
    k
}
