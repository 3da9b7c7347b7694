// What the recursion needs of the events, at the front of the work table: the two junctions of each event, and its three words (theory_timeline's Tags).
// Here the tables of the events are read for the last time, and kinds are told by call_kinds.
#![tactic(auto)]

mod tags;

ghost use Rattle.std.specs.Prelude.{◌≡◌, cond, false, ◌+◌, ◌*◌, ◌<◌, ◌≤◌, length, set};
ghost use Rattle.std.proofs.lemmas.List.Edits.{sets};
ghost use Rattle.theory_graph.specs.Lists.{pairs};
ghost use Rattle.call_kinds.specs.Kinds.{is_query, kind_of};
ghost use Rattle.theory_timeline.specs.Events.{active_of, ends};
ghost use Rattle.replay_events.specs.Kinds.{queries_by};
ghost use Rattle.replay_events.specs.Writing.{CanPlace, CanWriteEvents, EventsWritten, LinkRoom, LinkedEvent, TagsFit, Written, last_by, next_by, tags_in};

// Writes the two junctions of event i.
// Kept: the tables travel as they come: a struct of n, a and b is no plainer for this function and the next alone.
fn put_ends(n: usize, a: &[u16], b: &[u16], x: u16, y: u16, i: usize, work: &mut [u32])
    requires { (2 * i + 2 ≤ length work.old) × (is_query (kind_of n x) ≡ false → (y < length a.now) × (y < length b.now)) }
    ensures { work.new ≡
        set (set work.old (2 * i) (ends n (pairs a.now b.now) (x, y)).0)
        (2 * i + 1) (ends n (pairs a.now b.now) (x, y)).1 }
{
    let (near, far) = if call_kinds::is_query(x, n) {
        (x, y)
    } else {
        (a[y as usize], b[y as usize])
    };
    work[2 * i] = near as u32;
    work[2 * i + 1] = far as u32;
}

// Those of all events.
fn put_junctions(n: usize, a: &[u16], b: &[u16], x: &[u16], y: &[u16], work: &mut [u32])
    requires { CanPlace n a.now b.now x.now y.now work.old }
    ensures { work.new ≡
        sets work.old 0 (active_of n (pairs a.now b.now) (pairs x.now y.now)) }
{
    // The junctions of the first i events are written.
    for (i, &event_x) in x.iter().enumerate() {
        put_ends(n, a, b, event_x, y[i], i, work);
    }
}

// Word k of event i becomes what stands in `heads` for its key, and v stands there then; 0 for a query.
fn link_event(work: &mut [u32], heads: &mut [u32; 8192], t: usize, i: usize, k: usize, v: u32)
    requires { LinkRoom t i k work.old × (length heads.old ≡ 8192) }
    ensures { LinkedEvent t i k v heads.old work.old heads.new work.new }
{
    // Kept: fixed memory needs it: tags and links are words of the work table, where 0 stands for none.
    let tag = work[2 * t + 3 * i] as usize;
    if tag == 0 {
        work[2 * t + 3 * i + k] = 0;
        return;
    }
    let key = (tag - 1) / 4;
    let x = heads[key];
    work[2 * t + 3 * i + k] = x;
    heads[key] = v;
}

// The last event before each event that names its key.
fn link_lasts(work: &mut [u32], t: usize)
    requires { TagsFit t work.old }
    ensures { Written t 2 (last_by (tags_in t work.old)) 0 t work.old work.new }
{
    // Kept: fixed memory needs it: a head for each of 8,192 keys stands in a local table.
    let mut heads = [0u32; 8192];
    // The first i events are linked.
    for i in 0..t {
        link_event(work, &mut heads, t, i, 2, (i + 1) as u32);
    }
}

// The next event that names the key of each event.
fn link_nexts(work: &mut [u32], t: usize)
    requires { TagsFit t work.old }
    ensures { Written t 1 (next_by (tags_in t work.old) t) 0 t work.old work.new }
{
    // Kept: fixed memory needs it: a head for each of 8,192 keys stands in a local table.
    let mut heads = [t as u32; 8192];
    // The events behind i are linked.
    for i in (0..t).rev() {
        link_event(work, &mut heads, t, i, 1, i as u32);
    }
}

// Internal: the junctions of all events, 2 t words, and behind them their words, 3 t; then the names of the m segments' roads, and how many segments of each
// road are open at the end, m words each.
pub fn write_events(
    n: usize,
    a: &[u16],
    b: &[u16],
    start: &[u16],
    x: &[u16],
    y: &[u16],
    work: &mut [u32],
)
    requires { CanWriteEvents n a.now b.now start.now x.now y.now work.old }
    ensures { EventsWritten n a.now b.now start.now x.now y.now work.new }
{
    let t = x.len();
    let names = 5 * t;
    replay_roads::count_roads(n, a, b, start, work, names);
    put_junctions(n, a, b, x, y, work);
    let places = tags::Counts {
        n,
        names,
        counts: names + a.len(),
    };
    places.put_tags(x, y, work);
    link_lasts(work, t);
    link_nexts(work, t);
}

// Internal: the queries among the first t events.
pub fn count_queries(n: usize, x: &[u16], t: usize) -> usize
    requires { t ≤ length x.now }
    ensures { result ≡ queries_by n x.now t }
{
    x[..t]
        .iter()
        .filter(|x| call_kinds::is_query(**x, n))
        .count()
}
