// Random networks with lists of events, of several kinds; and such with a fault.
use crate::networks;
use crate::networks::{Kind, Network};
use test_library::calls::Lending;
use test_library::replays::{CLOSES, Event, List, OPENS, Sizes};
use test_library::tables::Marks;
use test_library::{random, tables};

// A list; how its tables are lent; the places of the ring that it is on, where it is on one; and the most events that such a list may have.
#[derive(Drop)]
pub struct Drawn {
    pub list: List,
    pub lending: Lending,
    pub ring: Option<usize>,
    pub most: usize,
}

// What a list is drawn by: its sizes; its network; of how many roads of a ring two segments each open and close, where not any segment may; and about how many
// of eight segments are open at the start: none, some or all.
#[derive(Clone, Copy)]
struct Plan {
    sizes: Sizes,
    network: Network,
    roads: Option<usize>,
    eighths: usize,
}

fn may_ask_for_a_junction_with_itself(kind: Kind) -> bool {
    kind != Kind::TurnedRing
}

impl Plan {
    // Whether segment e is open at the start.
    fn is_open(&self, e: usize) -> bool {
        random::at(self.network.seed, 16, e, 8) < self.eighths
    }

    // Whether event i changes a segment in order or asks. Half of the lists do so at first, in three events of four, so that of those that are closed at the
    // start many are open when it is asked later.
    fn is_ordered(&self, i: usize) -> bool {
        self.network.seed / 18 % 2 == 0 && i.saturating_mul(4) < self.sizes.t.saturating_mul(3)
    }

    // Which of the segments that change event i changes, or none where it asks.
    fn change(&self, i: usize) -> Option<usize> {
        let s = self.network.seed;
        let count = match self.roads {
            None => self.sizes.m,
            Some(roads) => roads.saturating_add(roads),
        };
        let asks = if self.is_ordered(i) {
            i % 3 == 2
        } else {
            random::at(s, 4, i, 8) < 4
        };
        if asks || count == 0 {
            return None;
        }
        if self.is_ordered(i) {
            return Some((i / 3 * 2 + i % 3) % count);
        }
        Some(random::at(s, 3, i, count))
    }

    // The place of ring road r: on the largest ring the roads lie apart from one another, on the others side by side.
    fn road_place(&self, r: usize) -> usize {
        if self.network.places < 4096 {
            return r;
        }
        r.saturating_mul(700)
    }

    // The segment that is number c of those that change: first comes one segment of each road, then the other.
    fn segment(&self, c: usize) -> usize {
        match self.roads {
            None => c,
            Some(roads) if c < roads => self.road_place(c),
            Some(roads) => {
                let place = self.road_place(c.saturating_sub(roads));
                place.saturating_add(self.network.places)
            }
        }
    }

    // A junction that event i asks for: now and then any, else one of the first places, of which the first events name few.
    fn asked(&self, table: usize, i: usize) -> usize {
        let below = if i % 32 == 31 {
            self.sizes.n
        } else {
            i.saturating_add(2).min(self.network.places)
        };
        random::at(self.network.seed, table, i, below)
    }

    // Event i: it opens or closes a segment, or it asks; on a ring for two junctions.
    fn event(&self, open: &mut Marks, i: usize) -> Event {
        if let Some(c) = self.change(i) {
            let e = self.segment(c);
            let was_open = tables::is_marked(open, e);
            tables::mark(open, e, !was_open);
            return if was_open {
                Event::Closes(e)
            } else {
                Event::Opens(e)
            };
        }
        let u = self.asked(5, i);
        let v = self.asked(6, i);
        if u == v && !may_ask_for_a_junction_with_itself(self.network.kind) {
            return Event::Asks(u, random::round(v.saturating_add(1), self.network.places));
        }
        Event::Asks(u, v)
    }

    fn make(&self) -> List {
        let mut list = List::filled(self.sizes, 65000);
        self.network.make_ends(&mut list.segments);
        let mut open = [false; 8192];
        for e in 0..self.sizes.m {
            let opens = self.is_open(e);
            tables::set(&mut list.start, e, usize::from(opens));
            tables::mark(&mut open, e, opens);
        }
        for i in 0..self.sizes.t {
            list.set_event(i, self.event(&mut open, i));
        }
        list
    }
}

// Without junctions there is no segment and no event.
fn some(n: usize, count: usize) -> usize {
    if n == 0 { 0 } else { count }
}

// A list of at most so many events. Half of the lists have as many as they may.
fn draw(network: Network, most: usize, eighths: usize) -> Drawn {
    let seed = network.seed;
    let events = random::at(seed, 9, 0, most.saturating_mul(2)).min(most);
    let plan = Plan {
        sizes: Sizes {
            n: network.places,
            m: network.segments,
            t: some(network.places, events),
            p: 4 + random::at(seed, 10, 0, 9) % 9,
        },
        network,
        roads: None,
        eighths,
    };
    Drawn {
        list: plan.make(),
        lending: Lending::longer(),
        ring: None,
        most,
    }
}

// Kept: the fault is a number, which is drawn; an enum is no plainer, since it would be made of that number for this one match.
// X and Y of an event with a fault: X that is nothing; Y past the junctions, or past the segments; X past the junctions; an open or a close that comes by
// chance; or an event a second time.
fn bad_event(list: &List, what: usize, j: usize) -> (usize, usize) {
    let sizes = list.sizes;
    match what {
        1 => (65533, 0),
        2 => (random::round(j, sizes.n), sizes.n % 512 + j % 2),
        3 => (CLOSES + j % 2, sizes.m % 512 + j / 2 % 2),
        4 => (sizes.n % 512 + j % 12 * 5000, 0),
        5 => (OPENS, random::round(j, sizes.m)),
        6 => (CLOSES, random::round(j, sizes.m)),
        _ => list.event(random::round(j, sizes.t)).numbers(),
    }
}

// A starting entry that is neither 0 nor 1.
fn bad_start(s: usize) -> usize {
    match random::at(s, 17, 0, 3) {
        0 => 2,
        1 => 3,
        _ => 65535,
    }
}

// A share below 4 or above 12, one of them 4 modulo 16.
fn bad_share(s: usize) -> usize {
    match random::at(s, 30, 0, 4) {
        0 => 3,
        1 => 13,
        2 => 0,
        _ => 20,
    }
}

// Puts faults into the list: of the share, at an end, at a starting entry, at an event, which is refused or may be, or several of these.
fn spoil_list(list: &mut List, s: usize) {
    let what = random::at(s, 14, 0, 9);
    if random::at(s, 29, 0, 8) == 0 {
        list.sizes.p = bad_share(s);
    }
    if what < 2 {
        networks::spoil(&mut list.segments, s, list.sizes.n);
    }
    if what == 8 || random::at(s, 19, 0, 4) == 0 {
        tables::set(&mut list.start, random::at(s, 18, 0, 12), bad_start(s));
    }
    if what > 0 && what < 8 {
        let i = random::at(s, 15, 0, 12);
        let (x, y) = bad_event(list, what, random::at(s, 2, 0, 12));
        tables::set(&mut list.x, i, x);
        tables::set(&mut list.y, i, y);
    }
}

// How a list with a fault is lent: of some of them one table is one entry short, else those that are written are longer; and of some one of the five that are
// only read is one entry longer than its size.
fn bad_lending(s: usize) -> Lending {
    let is_short = random::at(s, 20, 0, 8) == 0;
    let is_long = random::at(s, 27, 0, 8) == 0;
    let short = 1 + random::at(s, 21, 0, 8) % 8;
    let long = 1 + random::at(s, 28, 0, 5) % 5;
    Lending {
        longer: !is_short,
        short: is_short.then_some(short),
        long: is_long.then_some(long),
    }
}

// Puts faults into every third list, and into its lending.
fn with_faults(mut drawn: Drawn, s: usize) -> Drawn {
    if s % 3 == 2 {
        spoil_list(&mut drawn.list, s);
        drawn.lending = bad_lending(s);
    }
    drawn
}

// A network of at most 8 junctions and 12 segments, in which two segments are of one road by chance.
fn plain(kind: Kind, seed: usize) -> Network {
    let places = random::at(seed, 7, 0, 9);
    Network {
        kind,
        seed,
        segments: some(places, random::at(seed, 8, 0, 13)),
        places,
        roads: None,
    }
}

// A network of 1 to 5 junctions and 3 to 12 segments along 2 to 7 roads, so that most roads have several segments.
fn doubled(kind: Kind, seed: usize) -> Network {
    Network {
        kind,
        seed,
        segments: 3 + random::at(seed, 8, 0, 10) % 10,
        places: 1 + random::at(seed, 7, 0, 5) % 5,
        roads: Some(2 + random::at(seed, 24, 0, 6) % 6),
    }
}

// In five of six lists most roads have several segments.
fn small_network(s: usize) -> Network {
    let kind = Kind::nth(s / 36);
    if s / 3 % 6 == 0 {
        plain(kind, s)
    } else {
        doubled(kind, s)
    }
}

// Internal: the list s of at most 12 segments and 12 events, of each kind in turn, and every third with a fault. In a ninth of the lists all segments are
// closed at the start, in a ninth all are open, and in the others each by chance.
pub fn small(s: usize) -> Drawn {
    with_faults(draw(small_network(s), 12, s / 324 % 9), s)
}

// A network of 5 to 13 junctions and 6 to 18 segments, of cycles or blocks that share junctions. In every second list the segments go along 5 to 15 roads, so
// that several are of one road by chance, else each along its own.
fn block_network(s: usize) -> Network {
    let roads = 5 + random::at(s, 24, 0, 11) % 11;
    Network {
        kind: Kind::nth_shared(s / 3),
        seed: s,
        segments: 6 + random::at(s, 8, 0, 13) % 13,
        places: 5 + random::at(s, 7, 0, 9) % 9,
        roads: (s / 9 % 2 == 1).then_some(roads),
    }
}

// Internal: the list s of at most 18 segments and 16 events on cycles or blocks that share junctions, of each kind in turn, and every third with a fault. In a
// fifth of the lists all segments are open at the start, and in the others half of them or more, so that the cycles are often whole.
pub fn blocks(s: usize) -> Drawn {
    with_faults(draw(block_network(s), 16, 4 + s / 18 % 5), s)
}

// Internal: the list s of 16, 64 or 256 junctions, and at most 512 segments and 512 events, of each kind in turn; in every second list the segments go along a
// third as many roads, else each along its own. The starting tables are of each kind in turn too, in another order for each number of junctions. Seeds lie
// apart, so that for each of these numbers some lists change segments in order.
pub fn large(s: usize) -> Drawn {
    let places = match s / 9 {
        0 => 16,
        1 => 64,
        _ => 256,
    };
    let seed = s % 64 * 7;
    let segments = random::at(seed, 8, 0, 513);
    let network = Network {
        kind: Kind::nth(s % 32 * 5),
        seed,
        segments,
        places,
        roads: (s % 2 == 1).then_some(segments / 3 + 1),
    };
    draw(network, 512, (s % 64 + s % 64 / 9 * 2) % 9)
}

// The places of ring i, at least three: with two places the segments there and back would be one road.
fn places(i: usize) -> usize {
    match i {
        1 => 1500,
        2 => 600,
        3 => 64,
        4 => 7,
        6 => 2500,
        _ => 4096,
    }
}

// How many roads of ring i change, each by two of its segments, where not any segment may change.
fn ring_roads(i: usize) -> Option<usize> {
    match i {
        3 => Some(64),
        4 => Some(7),
        7 => Some(2),
        8 => Some(5),
        _ => None,
    }
}

// How many of eight segments are open at the start in ring i.
fn ring_eighths(i: usize) -> usize {
    match i {
        5 | 6 | 7 | 8 => 8,
        9 => 4,
        _ => 0,
    }
}

// Internal: the list i of the full sizes on a ring. At the start all segments are closed in the first five, of which one becomes a path; all are open in four
// more, and each by chance in the last. In 3, 4, 7 and 8 two segments of each of some roads open and close.
pub fn ring(i: usize) -> Drawn {
    let places = places(i);
    let plan = Plan {
        sizes: Sizes {
            n: 4096,
            m: 8192,
            t: 4096,
            p: 4 + i % 9,
        },
        network: Network {
            kind: Kind::TurnedRing,
            seed: i,
            segments: 8192,
            places,
            roads: None,
        },
        roads: ring_roads(i),
        eighths: ring_eighths(i),
    };
    Drawn {
        list: plan.make(),
        lending: Lending::longer(),
        ring: Some(places),
        most: 4096,
    }
}

// Internal: its first events: as many as fit into a table that a test can hold for the sibling, which asks for four times the words of an event.
pub fn shorter_ring(i: usize) -> Drawn {
    let mut drawn = ring(i);
    drawn.list.sizes.t = 1200;
    drawn.most = 1200;
    drawn
}
