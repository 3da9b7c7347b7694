// The roads of a network: for each segment the name of its road, and for each road how many of its segments are open at the start. A road is found by its
// lower and its higher end: the segments are threaded by their lower ends, and along each thread the first segment of each higher end is kept.
#![tactic(auto)]

ghost use Rattle.std.specs.Prelude.{◌≡◌, ◌+◌, ◌*◌, ◌<◌, ◌≤◌, length, get_or, set};
ghost use Rattle.theory_graph.specs.Lists.{pairs};
ghost use Rattle.replay_roads.specs.Counting.{CanCount, Counting, RoadTables, RoadsCounted, one_more};
ghost use Rattle.replay_roads.specs.Naming.{RoadsNamed, SegmentTables, high, low, segment_or_none};
ghost use Rattle.replay_roads.specs.InWords.{InWords};
ghost use Rattle.replay_roads.specs.Runs.{Filled};

// Internal: the two ends of a segment, in ascending order: those of a road are the same whichever of its segments they are read from.
#[derive(Clone, Copy)]
pub struct Ends {
    pub low: usize,
    pub high: usize,
}

// The segments of a network of n junctions, by the tables of their ends, and the place from which on the words of their roads stand in the work table.
// Kept: with the words in it too it is no plainer: each method would have to say, in a clause more, that they stay the same reference.
#[derive(Clone, Copy)]
struct Roads<'a> {
    n: usize,
    a: &'a [u16],
    b: &'a [u16],
    place: usize,
}

// The word at place p becomes x.
fn put(work: &mut [u32], p: usize, x: usize)
    requires { (p < length work.old) × (x < 4294967296) }
    ensures { work.new ≡ set work.old p x }
{
    work[p] = x as u32;
}

// The k words from place f on become x.
fn fill(work: &mut [u32], f: usize, k: usize, x: usize)
    requires { (f + k ≤ length work.old) × (x < 4294967296) }
    ensures { Filled f k x work.old work.new }
{
    work[f..f + k].fill(x as u32);
}

// The segment that the word at place p names, of m segments.
// Kept: fixed memory needs it: heads, firsts and links are words of the work table, in which the number m of the segments stands for none.
fn segment_at(work: &[u32], p: usize, m: usize) -> Option<usize>
    requires { p < length work.now }
    ensures { result ≡ segment_or_none m (get_or work.now p 0) }
{
    let s = core_words::word(work, p);
    (s < m).then_some(s)
}

// Internal: the ends of segment s.
pub fn ends_of(a: &[u16], b: &[u16], s: usize) -> Ends
    requires { (s < length a.now) × (s < length b.now) }
    ensures { (result.low ≡ low (pairs a.now b.now) s) × (result.high ≡ high (pairs a.now b.now) s) }
{
    let x = a[s] as usize;
    let y = b[s] as usize;
    Ends {
        low: x.min(y),
        high: x.max(y),
    }
}

impl Roads<'_> {
    // Segment s becomes the first of the thread of its lower end.
    #[tactic(auto, using(crate::proofs::RoadWordLaws::thread_fits))]
    fn thread_segment(self, work: &mut [u32], s: usize)
        requires { InWords self work.old (s + 1) 0 0 × (s < length self.a.now) }
        ensures { InWords self.entry work.new s 0 0 }
    {
        let m = self.a.len();
        let v = ends_of(self.a, self.b, s).low;
        let next = core_words::word(work, self.place + m + v);
        put(work, self.place + m + 2 * self.n + s, next);
        put(work, self.place + m + v, s);
    }

    // All segments are threaded, in descending order, so that each is followed by the next larger one with its lower end.
    fn thread(self, work: &mut [u32])
        requires { InWords self work.old (length self.a.now) 0 0 }
        ensures { InWords self.entry work.new 0 0 0 }
    {
        // The segments behind s are threaded.
        for s in (0..self.a.len()).rev() {
            self.thread_segment(work, s);
        }
    }

    // Segment s, the next of the thread of v, gets its name: the first segment that has its higher end too, which is itself where no other was kept.
    // What was kept for another lower end does not count, so nothing is cleared between two threads.
    #[tactic(auto, using(crate::proofs::RoadWordLaws::name_fits))]
    fn name_segment(self, work: &mut [u32], v: usize, s: usize)
        requires { InWords self work.old 0 v s × (s < length self.a.now) × (low (pairs self.a.now self.b.now) s ≡ v) }
        ensures { InWords self.entry work.new 0 v (s + 1) }
    {
        let m = self.a.len();
        let kept = self.place + m + self.n + ends_of(self.a, self.b, s).high;
        if let Some(first) = segment_at(work, kept, m) {
            if ends_of(self.a, self.b, first).low == v {
                put(work, self.place + s, first);
                return;
            }
        }
        put(work, self.place + s, s);
        put(work, kept, s);
    }

    // All segments with the lower end v get their names, along their thread.
    fn walk(self, work: &mut [u32], v: usize)
        requires { InWords self work.old 0 v 0 × (v < self.n) }
        ensures { InWords self.entry work.new 0 (v + 1) 0 }
    {
        let m = self.a.len();
        let mut next = segment_at(work, self.place + m + v, m);
        // The segments of the thread before `next` are named.
        while let Some(s) = next {
            self.name_segment(work, v, s);
            next = segment_at(work, self.place + m + 2 * self.n + s, m);
        }
    }

    // The threads of all junctions.
    fn walk_all(self, work: &mut [u32])
        requires { InWords self work.old 0 0 0 }
        ensures { InWords self.entry work.new 0 self.entry.n 0 }
    {
        // The segments with a lower end below v are named.
        for v in 0..self.n {
            self.walk(work, v);
        }
    }

    // The names of the roads, one word for each segment. Behind them are scratch: n heads, n firsts and a link for each segment.
    fn name(self, work: &mut [u32])
        requires { SegmentTables self.n self.a.now self.b.now × (self.place + 2 * length self.a.now + 2 * self.n ≤ length work.old) }
        ensures { RoadsNamed self.entry.a.now self.entry.b.now self.entry.place work.old work.new }
    {
        let m = self.a.len();
        fill(work, self.place + m, 2 * self.n, m);
        self.thread(work);
        self.walk_all(work);
    }
}

// Segment s, which is open at the start, is counted for its road.
fn count_segment(work: &mut [u32], q: usize, m: usize, s: usize)
    requires { CanCount m q s work.old }
    ensures { work.new ≡ one_more m q s work.old }
{
    let r = core_words::word(work, q + s);
    let c = core_words::word(work, q + m + r);
    put(work, q + m + r, c + 1);
}

// The counts of the starting table, behind the names and all 0 before.
fn count_start(start: &[u16], work: &mut [u32], q: usize)
    requires { Counting start.now q work.old work.old 0 }
    ensures { Counting start.now q work.old work.new (length start.now) }
{
    // The first s segments are counted.
    for (s, &entry) in start.iter().enumerate() {
        if entry == 1 {
            count_segment(work, q, start.len(), s);
        }
    }
}

// Internal: from place q on, the name of each segment's road, and behind these names, by the name of a road, how many of its segments are open at the start;
// the 2 n words behind both are scratch. Linear in junctions and segments: each segment is threaded once and walked once, and the starting table is passed once.
pub fn count_roads(n: usize, a: &[u16], b: &[u16], start: &[u16], work: &mut [u32], q: usize)
    requires { RoadTables n a.now b.now start.now × (q + 2 * length a.now + 2 * n ≤ length work.old) }
    ensures { RoadsCounted a.now b.now start.now q work.old work.new }
{
    let m = a.len();
    Roads { n, a, b, place: q }.name(work);
    fill(work, q + m, m, 0);
    count_start(start, work, q);
}
