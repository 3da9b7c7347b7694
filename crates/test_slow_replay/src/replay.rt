// The slow replay. The edges of a network are marks: one segment is marked for each of its roads. Where the network is a ring, walking round tells the answers
// and the nodes; else the open roads are removed in turn.
ghost use Rattle.std.specs.Prelude.{◌≤◌};

use crate::rings::Ring;
use crate::roads;
use test_library::refusals::Refusal;
use test_library::replays::{Event, Lengths, List, Replayed, Sizes, Totals};
use test_library::tables::Marks;
use test_library::{refusals, tables};
use test_slow_graphs::graphs::{Kept, OpenGraph};

// Internal: changes the segments by an event.
pub fn change(open: &mut Marks, event: Event) {
    match event {
        Event::Opens(e) => tables::mark(open, e, true),
        Event::Closes(e) => tables::mark(open, e, false),
        Event::Asks(_, _) => (),
    }
}

// Internal: the segments that are open before event i.
pub fn open_before(list: &List, i: usize) -> Marks {
    let mut open = [false; 8192];
    for e in 0..list.sizes.m {
        tables::mark(&mut open, e, tables::at(&list.start, e) == 1);
    }
    for j in 0..i {
        change(&mut open, list.event(j));
    }
    open
}

// The graph of a network with these edges.
fn graph<'a>(list: &'a List, edges: &'a [bool]) -> OpenGraph<'a> {
    OpenGraph {
        nodes: list.sizes.n,
        count: list.sizes.m,
        edges: &list.segments,
        open: edges,
    }
}

// Internal: how many of n events the first part of a window has.
pub fn first_part(n: usize, share: usize) -> usize
    ensures { 1 ≤ result }
{
    (n.saturating_mul(share) / 16).max(1)
}

// The answer of an event, and the road that is named, where there is one.
// Kept: an answer is a number, as the tables and the vectors hold it; the new form is no plainer: an enum would be turned into that number at each comparison.
#[derive(Clone, Copy)]
struct Answer {
    number: u8,
    road: Option<usize>,
}

// A list, and the ring that its network is, where it is one.
#[derive(Clone, Copy)]
struct SlowReplay<'a> {
    list: &'a List,
    ring: Option<Ring>,
}

impl<'a> SlowReplay<'a> {
    // An edge for each open road.
    fn edges(&self, open: &[bool]) -> Marks {
        match self.ring {
            Some(ring) => ring.edges(open),
            None => roads::edges(self.list, open),
        }
    }

    // Takes the road of segment e away.
    fn remove_road(&self, edges: &mut Marks, e: usize) {
        match self.ring {
            Some(ring) => ring.remove(edges, e),
            None => roads::remove(edges, self.list, e),
        }
    }

    // The two junctions that an event names.
    fn junctions(&self, event: Event) -> (usize, usize) {
        match event {
            Event::Asks(u, v) => (u, v),
            Event::Opens(e) | Event::Closes(e) => self.list.segments.ends(e),
        }
    }

    // The network of a window: the roads that are open before it and of which it names no segment.
    fn window_edges(&self, first: usize, end: usize) -> Marks {
        let mut edges = self.edges(&open_before(self.list, first));
        for i in first..end {
            match self.list.event(i) {
                Event::Opens(e) | Event::Closes(e) => self.remove_road(&mut edges, e),
                Event::Asks(_, _) => (),
            }
        }
        edges
    }

    // The nodes of a window's small graph. On a ring they are the classes with an active junction.
    fn nodes(&self, first: usize, end: usize) -> usize {
        let edges = self.window_edges(first, end);
        let is_whole = self.ring.is_some_and(|ring| ring.is_whole(&edges));
        let class = |v: usize| match self.ring {
            Some(ring) => ring.class(is_whole, v),
            None => v,
        };
        let mut active = [false; 8192];
        for i in first..end {
            let (u, v) = self.junctions(self.list.event(i));
            tables::mark(&mut active, class(u), true);
            tables::mark(&mut active, class(v), true);
        }
        if self.ring.is_some() {
            return tables::ones(&active);
        }
        Kept::new(graph(self.list, &edges), &active).count()
    }

    // The nodes of the window of n events from this one on, and of all windows below it.
    fn kept(&self, first: usize, n: usize) -> usize {
        let own = self.nodes(first, first.saturating_add(n));
        let part = first_part(n, self.list.sizes.p);
        if n <= part {
            return own;
        }
        let near = self.kept(first, part);
        let far = self.kept(first.saturating_add(part), n - part);
        own.saturating_add(near).saturating_add(far)
    }

    // The road with the smallest name whose loss parts u and v, which are joined, by its name.
    fn least_parting(&self, graph: &OpenGraph, u: usize, v: usize) -> Option<usize> {
        let segments = &self.list.segments;
        (0..self.list.sizes.m)
            .filter(|e| graph.is_parting(*e, u, v))
            .map(|e| roads::name(segments, e))
            .min()
    }

    // The answer of an event, where these segments are open.
    fn answer(&self, open: &[bool], event: Event) -> Answer {
        let Event::Asks(u, v) = event else {
            return Answer {
                number: 3,
                road: None,
            };
        };
        let edges = self.edges(open);
        let graph = graph(self.list, &edges);
        let number = match self.ring {
            Some(ring) => ring.answer(&edges, u, v),
            None => graph.answer(u, v),
        };
        let road = match self.ring {
            _ if number != 1 => None,
            Some(ring) => Some(ring.name(&edges, u, v)),
            None => self.least_parting(&graph, u, v),
        };
        Answer { number, road }
    }

    // The number by which an event is refused, where these segments are open.
    fn event_fault(&self, open: &[bool], event: Event) -> Option<usize> {
        let sizes = self.list.sizes;
        match event {
            Event::Asks(u, v) if u < sizes.n && v < sizes.n => None,
            Event::Opens(e) if e < sizes.m => {
                tables::is_marked(open, e).then_some(refusals::OPENS)
            }
            Event::Closes(e) if e < sizes.m => {
                (!tables::is_marked(open, e)).then_some(refusals::CLOSES)
            }
            _ => Some(refusals::KIND),
        }
    }

    // The segments that are open behind all events, or the refusal of the first event with a fault.
    fn open_at_the_end(&self) -> Result<Marks, Refusal> {
        let mut open = open_before(self.list, 0);
        for i in 0..self.list.sizes.t {
            let event = self.list.event(i);
            if let Some(code) = self.event_fault(&open, event) {
                return Err(Refusal { code, place: i });
            }
            change(&mut open, event);
        }
        Ok(open)
    }

    // The same where sizes, lengths and share are allowed.
    fn checked(&self) -> Result<Marks, Refusal> {
        let list = self.list;
        let sizes = list.sizes;
        if let Some(place) = list.segments.first_bad(sizes.n, sizes.m) {
            let code = refusals::END;
            return Err(Refusal { code, place });
        }
        if let Some(place) = (0..sizes.m).find(|e| tables::at(&list.start, *e) > 1) {
            let code = refusals::START;
            return Err(Refusal { code, place });
        }
        self.open_at_the_end()
    }

    // The outcome of a list without a fault, with so many segments open at the end.
    fn accepted(&self, open_at_the_end: usize) -> Replayed {
        let t = self.list.sizes.t;
        let mut open = open_before(self.list, 0);
        let mut answers = [0; 4104];
        let mut names = [0; 8200];
        for (i, (answer, name)) in answers.iter_mut().zip(names.iter_mut()).take(t).enumerate() {
            let event = self.list.event(i);
            let found = self.answer(&open, event);
            *answer = found.number;
            *name = found.road.map_or(u16::MAX, |e| (e % 65536) as u16);
            change(&mut open, event);
        }
        let totals = Totals {
            queries: t.saturating_sub(tables::tally(&answers, t, 3)),
            open: open_at_the_end,
            kept: if t > 0 { self.kept(0, t) } else { 0 },
        };
        Replayed {
            reply: Ok(totals),
            answers,
            names,
            words_wrong: 0,
        }
    }
}

// Internal: how many open roads part the two junctions of a query with the answer 1.
pub fn parting_roads(list: &List, open: &[bool], u: usize, v: usize) -> usize {
    graph(list, &roads::edges(list, open)).parting(u, v)
}

// Internal: the answer to a query if each segment were a road.
pub fn answer_by_segments(list: &List, open: &[bool], u: usize, v: usize) -> u8 {
    graph(list, open).answer(u, v)
}

// Internal: the least length of the work table. Sizes count up to one past their limits.
pub fn required(sizes: Sizes) -> usize
    ensures { result ≤ 1247528 }
{
    sizes.t.min(4097) * 256 + sizes.n.min(4097) * 32 + sizes.m.min(8193) * 8 + 2048
}

// Whether a table is shorter than it must be.
fn is_short(sizes: Sizes, l: Lengths) -> bool {
    let m = sizes.m;
    let t = sizes.t;
    let network = l.a < m || l.b < m || l.start < m;
    let events = l.x < t || l.y < t || l.answers < t || l.names < t;
    network || events || l.work < required(sizes)
}

// Whether a table that is only read is longer than its size.
fn is_long(sizes: Sizes, l: Lengths) -> bool {
    let m = sizes.m;
    let t = sizes.t;
    l.a > m || l.b > m || l.start > m || l.x > t || l.y > t
}

// The number by which the sizes, a length or the share are refused.
fn frame_fault(sizes: Sizes, lengths: Lengths) -> Option<usize> {
    if sizes.n > 4096 || sizes.m > 8192 || sizes.t > 4096 {
        return Some(refusals::SIZE);
    }
    if is_short(sizes, lengths) {
        return Some(refusals::SHORT);
    }
    if is_long(sizes, lengths) {
        return Some(refusals::LONG);
    }
    (sizes.p < 4 || sizes.p > 12).then_some(refusals::SHARE)
}

// Internal: the outcome of a list whose tables have these lengths; on a ring of so many places, where it is on one.
pub fn reply(list: &List, lengths: Lengths, ring: Option<usize>) -> Replayed {
    if let Some(code) = frame_fault(list.sizes, lengths) {
        return Replayed::refused(Refusal::of(code));
    }
    let replay = SlowReplay {
        list,
        ring: ring.map(|places| Ring { places }),
    };
    match replay.checked() {
        Ok(open) => replay.accepted(tables::ones(&open)),
        Err(refusal) => Replayed::refused(refusal),
    }
}
