// The tags of all events, in one pass with a count of open segments for each road.
ghost use Rattle.std.specs.Prelude.{◌<◌, ◌≤◌, true, ◌≡◌, ltb, length};
ghost use Rattle.call_kinds.specs.Kinds.{is_closing, kind_of};
ghost use Rattle.replay_events.specs.Tagging.{ChangePut, ChangeReady, TagPut, TagReady, Tagged, TagsReady, count_after, tag_by};
ghost use Rattle.theory_timeline.specs.Tags.{bit};

use call_kinds::Kind;

// How many segments of a road are open after an event with this X that names one of them, where c are before.
#[tactic(auto, unfolding(crate::specs::Tagging::count_after, call_kinds::specs::Kinds::is_closing))]
pub(crate) fn count_after(x: u16, n: usize, c: usize) -> usize
    requires { (c ≤ 12288) × (is_closing (kind_of n x) ≡ true → 0 < c) }
    ensures { (result ≡ count_after (kind_of n x) c) × (result ≤ 12289) }
{
    match call_kinds::kind_of(x, n) {
        Kind::Query | Kind::None => c,
        Kind::Opens => c + 1,
        Kind::Closes => c - 1,
    }
}

// The tag of an event that names a segment of road r, where c of its segments are open before it and d after it.
pub(crate) fn tag_of(r: usize, c: usize, d: usize) -> usize
    requires { r < 8192 }
    ensures { (result ≡ tag_by r c d) × (result ≤ 32768) }
{
    1 + 4 * r + 2 * usize::from(c > 0) + usize::from(d > 0)
}

// Where the tags are made from, beside the events: the number n of junctions, and the places from which on the work table has the names of the segments' roads
// and the counts of the roads.
#[derive(Clone, Copy)]
pub(crate) struct Counts {
    pub n: usize,
    pub names: usize,
    pub counts: usize,
}

impl Counts {
    // An event that names segment s: the count of the segment's road changes, and the tag is written at its place.
    fn put_change(self, x: u16, s: usize, at: usize, work: &mut [u32])
        requires { ChangeReady self.n x s self.names self.counts at work.old }
        ensures { ChangePut self.n x s self.names self.counts at work.old work.new }
    {
        let r = work[self.names + s] as usize;
        let c = work[self.counts + r] as usize;
        let d = count_after(x, self.n, c);
        work[self.counts + r] = d as u32;
        work[at] = tag_of(r, c, d) as u32;
    }

    // Writes the tag of an event at its place: 0 for a query.
    fn put_tag(self, x: u16, s: usize, at: usize, work: &mut [u32])
        requires { TagReady self.n x s self.names self.counts at work.old }
        ensures { TagPut self.n x s self.names self.counts at work.old work.new }
    {
        if call_kinds::is_query(x, self.n) {
            work[at] = 0;
            return;
        }
        self.put_change(x, s, at, work);
    }

    // The tags of all events.
    pub(crate) fn put_tags(self, x: &[u16], y: &[u16], work: &mut [u32])
        requires { TagsReady self.n x.now y.now self.names self.counts work.old }
        ensures { Tagged self.n x.now y.now self.names self.counts work.old work.new (length x.now) }
    {
        let t = x.len();
        // The tags of the first i events are written, and the counts are those before event i.
        for (i, &event_x) in x.iter().enumerate() {
            self.put_tag(event_x, y[i] as usize, 2 * t + 3 * i, work);
        }
    }
}
