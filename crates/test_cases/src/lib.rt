// Internal, for the tests alone: lists at the limits and with faults, on the path 0-1-2 with loops for the segments that are left. Each event has Y 1, so that
// it opens or closes segment 1, or asks for junction 1 with the junction X; and the segments that no number is for are open at the start.
#![tactic(auto)]

use test_library::calls::Lending;
use test_library::refusals::Refusal;
use test_library::replays::{CLOSES, List, OPENS, ReplayCall, Replayed, Sizes};
use test_library::{refusals, tables};
use test_random::networks::{Kind, Network};

// The sizes; how the tables are lent; and the numbers that vary: the end at which segment 1 begins, the starting entries of segments 0 and 1, and X of the
// first three events.
#[derive(Clone, Copy)]
pub struct Case {
    pub sizes: Sizes,
    pub lending: Lending,
    pub end: usize,
    pub start: [usize; 2],
    pub x: [usize; 3],
}

// X of a query.
pub const ASKS: usize = 0;

// X of an event of no kind.
const NO_KIND: usize = 65533;

impl Case {
    // Internal: no fault and no change: all segments are open, and the events ask.
    pub fn sized(n: usize, m: usize, t: usize) -> Case {
        Case {
            sizes: Sizes { n, m, t, p: 8 },
            lending: Lending::default(),
            end: 1,
            start: [1, 1],
            x: [ASKS, ASKS, ASKS],
        }
    }

    // Internal: the path with this starting entry of segment 1, and two events with these X.
    pub fn path(entry: usize, first: usize, second: usize) -> Case {
        let mut c = Case::sized(3, 2, 2);
        c.start[1] = entry;
        c.x[0] = first;
        c.x[1] = second;
        c
    }

    // The same, where segment 1 is a loop, of one road with segment 2.
    fn doubled(entry: usize, first: usize, second: usize) -> Case {
        let mut c = Case::path(entry, first, second);
        c.sizes.m = 3;
        c.end = 2;
        c
    }

    fn with_share(p: usize) -> Case {
        let mut c = Case::path(0, ASKS, ASKS);
        c.sizes.p = p;
        c
    }

    // A starting entry past the segments.
    fn past_the_segments(entry: usize) -> Case {
        let mut c = Case::path(entry, ASKS, ASKS);
        c.sizes.m = 1;
        c.lending.long = Some(3);
        c
    }

    // Internal: the case with a fault.
    pub fn with_fault(mut self, f: Fault) -> Case {
        match f {
            Fault::Size => self.sizes.n = 4097,
            Fault::Short(table) => self.lending.short = Some(table),
            Fault::Long(table) => self.lending.long = Some(table),
            Fault::Share => self.sizes.p = 13,
            Fault::End => self.end = 65000,
            Fault::Start => self.start[0] = 2,
            Fault::Opens => self.x[0] = OPENS,
            Fault::Closes => self.x[1] = CLOSES,
            Fault::Kind => self.x[2] = NO_KIND,
        }
        self
    }

    // Internal: its list.
    pub fn list(&self) -> List {
        let network = Network {
            kind: Kind::Path,
            seed: 0,
            segments: self.sizes.m,
            places: 3,
            roads: None,
        };
        let mut list = List::filled(self.sizes, 1);
        network.make_ends(&mut list.segments);
        tables::set(&mut list.segments.from, 1, self.end);
        for (entry, varied) in list.start.iter_mut().zip(self.start) {
            *entry = (varied % 65536) as u16;
        }
        list.x = [0; 8200];
        for (entry, varied) in list.x.iter_mut().zip(self.x) {
            *entry = (varied % 65536) as u16;
        }
        list
    }

    // Internal: the outcome of the call on it.
    pub fn run<C: ReplayCall>(&self, work: &mut [u32]) -> Replayed {
        C::run(&self.list(), C::lengths(self.sizes, self.lending), work)
    }
}

// A fault: a size, a table an entry short or longer, the share, an end, a starting entry, or one of the first three events: one that opens an open segment,
// closes a closed one, or has no kind.
#[derive(Clone, Copy)]
pub enum Fault {
    Size,
    Short(usize),
    Long(usize),
    Share,
    End,
    Start,
    Opens,
    Closes,
    Kind,
}

impl Fault {
    // Internal: its refusal.
    pub fn refusal(self) -> Refusal {
        let (code, place) = match self {
            Fault::Size => (refusals::SIZE, 0),
            Fault::Short(_) => (refusals::SHORT, 0),
            Fault::Long(_) => (refusals::LONG, 0),
            Fault::Share => (refusals::SHARE, 0),
            Fault::End => (refusals::END, 1),
            Fault::Start => (refusals::START, 0),
            Fault::Opens => (refusals::OPENS, 0),
            Fault::Closes => (refusals::CLOSES, 1),
            Fault::Kind => (refusals::KIND, 2),
        };
        Refusal { code, place }
    }
}

// Internal: fault i of nine, in the order of the refusals, those at events in the order of the events. The starting entry stands before the end.
pub fn fault_at(i: usize) -> Fault {
    match i {
        0 => Fault::Size,
        1 => Fault::Short(8),
        2 => Fault::Long(1),
        3 => Fault::Share,
        4 => Fault::End,
        5 => Fault::Start,
        6 => Fault::Opens,
        7 => Fault::Closes,
        _ => Fault::Kind,
    }
}

// A case whose second event has no kind, with the six faults before those of events, but for the first so many.
fn with_all_from(first: usize) -> Case {
    (first..6).fold(
        Case::path(0, OPENS, NO_KIND),
        |c, i| c.with_fault(fault_at(i)),
    )
}

// Internal: case i of 27, and what is printed of it. Sizes are refused before short tables, these before long ones, these before the share, the share before
// ends, ends before starting entries, and these before events: the last seven have all these faults, all but the first, and so on.
pub fn case_at(i: usize) -> (&'static str, Case) {
    match i {
        0 => (
            "4096 junctions, 8192 segments, 4096 events, reply",
            Case::sized(4096, 8192, 4096),
        ),
        1 => ("4097 junctions, reply", Case::sized(4097, 8192, 4096)),
        2 => ("8193 segments, reply", Case::sized(4096, 8193, 4096)),
        3 => ("4097 events, reply", Case::sized(4096, 8192, 4097)),
        4 => (
            "close of a segment never opened, reply",
            Case::path(0, ASKS, CLOSES),
        ),
        5 => ("open twice, reply", Case::path(0, OPENS, OPENS)),
        6 => (
            "open of a segment that is open at the start, reply",
            Case::path(1, OPENS, ASKS),
        ),
        7 => ("close of it, twice, reply", Case::path(1, CLOSES, CLOSES)),
        8 => ("close and open of it, reply", Case::path(1, CLOSES, OPENS)),
        9 => (
            "open of a segment while another one of its road is open, reply",
            Case::doubled(0, OPENS, ASKS),
        ),
        10 => ("open of it twice, reply", Case::doubled(0, OPENS, OPENS)),
        11 => (
            "close of a segment while another one of its road is open, reply",
            Case::doubled(1, CLOSES, ASKS),
        ),
        12 => (
            "close of a closed segment while another one of its road is open, reply",
            Case::doubled(0, CLOSES, ASKS),
        ),
        13 => ("starting entry 2, reply", Case::path(2, ASKS, ASKS)),
        14 => (
            "starting entry 2 past the segments, reply",
            Case::past_the_segments(2),
        ),
        15 => ("share 3, reply", Case::with_share(3)),
        16 => ("share 4, reply", Case::with_share(4)),
        17 => ("share 12, reply", Case::with_share(12)),
        18 => ("share 13, reply", Case::with_share(13)),
        19 => ("least lengths, reply", Case::path(0, OPENS, ASKS)),
        20 => (
            "faults of size, short table, long table, share, end, start and event at once, reply",
            with_all_from(0),
        ),
        21 => (
            "of short table, long table, share, end, start and event",
            with_all_from(1),
        ),
        22 => (
            "of long table, share, end, start and event",
            with_all_from(2),
        ),
        23 => ("of share, end, start and event", with_all_from(3)),
        24 => ("of end, start and event", with_all_from(4)),
        25 => ("of start and event", with_all_from(5)),
        _ => ("of event", with_all_from(6)),
    }
}

// A case with two faults, or with the first alone where both set the same number. Without them its first event closes segment 1.
fn pair(first: Fault, second: Fault) -> Case {
    let mut c = Case::path(1, CLOSES, ASKS);
    c.sizes.t = 3;
    c.with_fault(second).with_fault(first)
}

// Internal: whether a case with two faults is refused by the first, at its place, and leaves all entries as they were.
pub fn first_counts<C: ReplayCall>(first: Fault, second: Fault, work: &mut [u32]) -> bool {
    pair(first, second)
        .run::<C>(work)
        .is_refused_by(first.refusal())
}
