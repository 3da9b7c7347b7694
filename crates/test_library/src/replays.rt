// What a replay is lent, and what comes of it.
use crate::calls::Lending;
use crate::edges::Edges;
use crate::refusals::Refusal;
use crate::tables::Entries;
use crate::{calls, random, refusals, tables};

// The junctions, the segments, the events and the share.
#[derive(Clone, Copy)]
pub struct Sizes {
    pub n: usize,
    pub m: usize,
    pub t: usize,
    pub p: usize,
}

// The segments' ends, what is open at the start, and the events.
#[derive(Drop)]
pub struct List {
    pub sizes: Sizes,
    pub segments: Edges,
    pub start: Entries,
    pub x: Entries,
    pub y: Entries,
}

// X of an event that closes a segment, and of one that opens it. All other numbers are below them.
pub const CLOSES: usize = 65534;

pub const OPENS: usize = 65535;

// An event: it asks for two junctions, or closes or opens a segment.
#[derive(Clone, Copy)]
pub enum Event {
    Asks(usize, usize),
    Closes(usize),
    Opens(usize),
}

impl Event {
    // Internal: the event with this X and Y.
    pub fn new(x: usize, y: usize) -> Event {
        match x {
            CLOSES => Event::Closes(y),
            OPENS => Event::Opens(y),
            _ => Event::Asks(x, y),
        }
    }

    // Internal: X and Y.
    pub fn numbers(self) -> (usize, usize) {
        match self {
            Event::Asks(u, v) => (u, v),
            Event::Closes(e) => (CLOSES, e),
            Event::Opens(e) => (OPENS, e),
        }
    }
}

impl List {
    // Internal: a list of these sizes, with the same entry everywhere.
    pub fn filled(sizes: Sizes, entry: u16) -> List {
        let all = [entry; 8200];
        List {
            sizes,
            segments: Edges::filled(entry),
            start: all,
            x: all,
            y: all,
        }
    }

    // Internal: event i.
    pub fn event(&self, i: usize) -> Event {
        Event::new(tables::at(&self.x, i), tables::at(&self.y, i))
    }

    // Internal: sets event i.
    pub fn set_event(&mut self, i: usize, event: Event) {
        let (x, y) = event.numbers();
        tables::set(&mut self.x, i, x);
        tables::set(&mut self.y, i, y);
    }
}

// The lengths of the tables.
#[derive(Clone, Copy)]
pub struct Lengths {
    pub a: usize,
    pub b: usize,
    pub start: usize,
    pub x: usize,
    pub y: usize,
    pub answers: usize,
    pub names: usize,
    pub work: usize,
}

impl Lengths {
    // Internal: those of a list of these sizes, with a work table of at least so many words, lent so. The tables have the numbers from 1 to 8; the first five
    // are only read.
    pub fn new(sizes: Sizes, words: usize, lending: Lending) -> Lengths {
        let m = sizes.m;
        let t = sizes.t;
        Lengths {
            a: lending.exact(1, m),
            b: lending.exact(2, m),
            start: lending.exact(3, m),
            x: lending.exact(4, t),
            y: lending.exact(5, t),
            answers: lending.length(6, t),
            names: lending.length(7, t),
            work: lending.length(8, words),
        }
    }
}

// The three numbers that are returned.
#[derive(Clone, Copy, PartialEq, Eq, Default)]
pub struct Totals {
    pub queries: usize,
    pub open: usize,
    pub kept: usize,
}

pub type Reply = Result<Totals, Refusal>;

// The answers of a replay, and some behind them.
pub type Answers = [u8; 4104];

// A reply with the answers and the names; and how many words of the work table are wrong.
#[derive(Drop)]
pub struct Replayed {
    pub reply: Reply,
    pub answers: Answers,
    pub names: Entries,
    pub words_wrong: usize,
}

impl Replayed {
    // Internal: a refusal that is wanted.
    pub fn refused(refusal: Refusal) -> Replayed {
        Replayed {
            reply: Err(refusal),
            answers: [0; 4104],
            names: [0; 8200],
            words_wrong: 0,
        }
    }

    // Internal: whether a replay of t events comes out as wanted, with all entries that it must not change.
    pub fn agrees(&self, want: &Replayed, t: usize) -> bool {
        let count = if want.reply.is_ok() { t } else { 0 };
        let all = t.saturating_add(8);
        let answers_wrong = calls::entries_wrong(&self.answers, &want.answers, count, all);
        let names_wrong = calls::entries_wrong(&self.names, &want.names, count, all);
        self.reply == want.reply && answers_wrong == 0 && names_wrong == 0 && self.words_wrong == 0
    }

    // Whether no entry was changed.
    fn is_as_before(&self) -> bool {
        let answers_changed = calls::changed(&self.answers, 0, 4104);
        let names_changed = calls::changed(&self.names, 0, 4104);
        answers_changed == 0 && names_changed == 0 && self.words_wrong == 0
    }

    // Internal: whether it is refused so, with all entries as they were.
    pub fn is_refused_by(&self, refusal: Refusal) -> bool {
        self.reply == Err(refusal) && self.is_as_before()
    }

    // Internal: the refusal as it is printed: 0 at 0 where there is none, and by 99, which is no refusal's number, where an entry was changed.
    // Kept: 0 and 99 in place of an enum, by the rule that a program prints what it printed.
    pub fn printed(&self) -> Refusal {
        let mut refusal = refusals::printed(&self.reply);
        if self.reply.is_err() && !self.is_as_before() {
            refusal.code = 99;
        }
        refusal
    }

    // Internal: how many of 64 faults are noticed that are put into what is wanted of t events, each by itself; into answers alone, or into answers and names
    // in turn.
    pub fn noticed(&self, want: &Replayed, t: usize, s: usize, in_names: bool) -> usize {
        let is_noticed = |j: &usize| {
            let i = random::at(s, 7, *j, t);
            !self.agrees(&want.with_fault(i, in_names && j % 2 == 1), t)
        };
        (0..64).filter(is_noticed).count()
    }

    // With another answer, or another name, of event i.
    fn with_fault(&self, i: usize, in_names: bool) -> Replayed {
        let mut faulty = Replayed { ..*self };
        if in_names {
            if let Some(name) = faulty.names.get_mut(i) {
                *name = name.wrapping_add(1);
            }
        } else if let Some(answer) = faulty.answers.get_mut(i) {
            *answer = answer.wrapping_add(1);
        }
        faulty
    }
}

// A replay of the product, by the loss of a road or by the loss of a junction, and the slow version that it is compared with.
pub trait ReplayCall {
    // Internal: whether it names roads; it does where nothing is said. Where it does not there is no name table, whatever is said of its length.
    const HAS_NAMES: bool = true;

    // Internal: the outcome by the slow version, of a list whose tables have these lengths; on a ring of so many places, where it is on one.
    fn slow(list: &List, lengths: Lengths, ring: Option<usize>) -> Replayed;

    // Internal: the least length of the work table.
    fn required(sizes: Sizes) -> usize;

    // Internal: the call, with tables of these lengths at most.
    fn call(
        list: &List,
        lengths: Lengths,
        answers: &mut [u8],
        names: &mut [u16],
        work: &mut [u32],
    ) -> Reply;

    // Internal: the lengths of the tables that a list is lent.
    fn lengths(sizes: Sizes, lending: Lending) -> Lengths {
        Lengths::new(sizes, Self::required(sizes), lending)
    }

    // Internal: the outcome of the call. Of the work table the required length must be 0 where it is accepted, and all else as before.
    fn run(list: &List, lengths: Lengths, work: &mut [u32]) -> Replayed {
        let words = Self::required(list.sizes);
        let all = words.saturating_add(8);
        calls::refill(work, all);
        let mut answers = [calls::BEFORE; 4104];
        let mut names = [u16::from(calls::BEFORE); 8200];
        let reply = Self::call(list, lengths, &mut answers, &mut names, work);
        let cleared = if reply.is_ok() { words } else { 0 };
        Replayed {
            reply,
            answers,
            names,
            words_wrong: calls::words_wrong(work, cleared, all),
        }
    }
}
