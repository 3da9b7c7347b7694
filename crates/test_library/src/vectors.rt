// Vectors of a replay and of its sibling as text. A vector is a line of numbers of four digits in base 16, then ; at its end. Ten of the sizes: N, M, T, the
// share and zeros; ten of the lengths: of A, B, the starting table, X, Y, the answers, the names and the work table, and two zeros; ten of the reply: a
// refusal's number and its place, the queries, the segments open at the end, kept and zeros. Then come the first five tables of these lengths; and where it is
// accepted the answers, and the names where there are any.
use crate::counts::Count;
use crate::refusals::Refusal;
use crate::replays::{Lengths, List, ReplayCall, Replayed, Reply, Sizes, Totals};
use crate::text::{Numbers, NumbersFrom, ReadNumbers, Vectors};
use crate::{calls, refusals, text};
use std::io;

// A list, the lengths of its tables, and the outcome that is wanted.
#[derive(Drop)]
struct Vector {
    list: List,
    lengths: Lengths,
    want: Replayed,
}

fn read_sizes(numbers: &mut impl ReadNumbers) -> Sizes {
    let r = numbers.read_row();
    Sizes {
        n: r[0],
        m: r[1],
        t: r[2],
        p: r[3],
    }
}

fn read_lengths(numbers: &mut impl ReadNumbers) -> Lengths {
    let r = numbers.read_row();
    Lengths {
        a: r[0],
        b: r[1],
        start: r[2],
        x: r[3],
        y: r[4],
        answers: r[5],
        names: r[6],
        work: r[7],
    }
}

// The refusal that is wanted, 0 at 0 where there is none, and what is to be returned.
fn read_reply(numbers: &mut impl ReadNumbers) -> (Refusal, Totals) {
    let r = numbers.read_row();
    let refusal = Refusal {
        code: r[0],
        place: r[1],
    };
    let totals = Totals {
        queries: r[2],
        open: r[3],
        kept: r[4],
    };
    (refusal, totals)
}

fn read_list(numbers: &mut impl ReadNumbers, sizes: Sizes, lengths: Lengths) -> List {
    let mut list = List::filled(sizes, 65000);
    numbers.read_table(&mut list.segments.from, lengths.a);
    numbers.read_table(&mut list.segments.to, lengths.b);
    numbers.read_table(&mut list.start, lengths.start);
    numbers.read_table(&mut list.x, lengths.x);
    numbers.read_table(&mut list.y, lengths.y);
    list
}

// The outcome of t events. Where there are no names, they must stay as they were.
fn read_outcome(
    numbers: &mut impl ReadNumbers,
    reply: Reply,
    t: usize,
    has_names: bool,
) -> Replayed {
    let mut answers = [0; 4104];
    numbers.read_bytes(&mut answers, t);
    let mut names = [u16::from(calls::BEFORE); 8200];
    if has_names {
        numbers.read_table(&mut names, t);
    }
    Replayed {
        reply,
        answers,
        names,
        words_wrong: 0,
    }
}

// What stands before the tables of a vector.
#[derive(Clone, Copy)]
struct Head {
    sizes: Sizes,
    lengths: Lengths,
    refusal: Refusal,
    totals: Totals,
}

impl Head {
    fn read(numbers: &mut impl ReadNumbers) -> Head {
        let sizes = read_sizes(numbers);
        let lengths = read_lengths(numbers);
        let (refusal, totals) = read_reply(numbers);
        Head {
            sizes,
            lengths,
            refusal,
            totals,
        }
    }

    // The reply: refused by any number, wherever it is.
    fn reply(&self) -> Reply {
        if self.refusal.code > 0 {
            return Err(self.refusal);
        }
        Ok(self.totals)
    }

    // The vector with this reply, whose tables come now.
    fn read_vector(&self, numbers: &mut impl ReadNumbers, reply: Reply, has_names: bool) -> Vector {
        let list = read_list(numbers, self.sizes, self.lengths);
        let want = read_outcome(numbers, reply, self.sizes.t, has_names);
        Vector {
            list,
            lengths: self.lengths,
            want,
        }
    }
}

// How many vectors there are, how many of them the call does not give, and on how many the slow version differs from the call.
#[derive(Clone, Copy, Default)]
pub struct Compared {
    pub vectors: Count,
    pub wrong: Count,
    pub slow_differs: Count,
}

impl Compared {
    // Runs the call and the slow version on a vector.
    fn add<C: ReplayCall>(&mut self, vector: &Vector, work: &mut [u32]) {
        let list = &vector.list;
        let t = list.sizes.t;
        let replayed = C::run(list, vector.lengths, work);
        let by_slow = C::slow(list, vector.lengths, None);
        self.vectors.add(1);
        self.wrong.add_if(!replayed.agrees(&vector.want, t));
        self.slow_differs.add_if(!replayed.agrees(&by_slow, t));
    }
}

fn no_text() -> io::Error {
    io::Error::new(
        io::ErrorKind::InvalidData,
        "stream did not contain valid UTF-8",
    )
}

// Internal: runs the call and the slow version on each vector of standard input, of which the first 65,536 bytes are read: each line is one, and has names where
// its length of them is not 0. It is an error where these bytes are no text.
pub fn compare<C: ReplayCall>(rt: &impl Input, work: &mut [u32]) -> io::Result<Compared> {
    let mut text = [0; 65536];
    let length = text::read(rt, &mut text)?;
    let text = str::from_utf8(&text[..length]).map_err(|_| no_text())?;
    let mut compared = Compared::default();
    for line in text.lines() {
        let mut numbers = Numbers::new(text::vector(line));
        let head = Head::read(&mut numbers);
        let vector = head.read_vector(&mut numbers, head.reply(), head.lengths.names > 0);
        compared.add::<C>(&vector, work);
    }
    Ok(compared)
}

// Internal: the same on the first hundred vectors, each to the next ;. The call says whether it has names.
pub fn compare_hundred<C: ReplayCall>(rt: &impl Input, work: &mut [u32]) -> io::Result<Compared> {
    let mut text = [0; 65536];
    let length = text::read(rt, &mut text)?;
    let mut vectors = Vectors::new(&text, length);
    let mut compared = Compared::default();
    for _ in 0..100 {
        let Some(vector) = vectors.next() else {
            break;
        };
        let mut numbers = NumbersFrom::new(&text, vector.start);
        let head = Head::read(&mut numbers);
        let reply = refusals::read(head.refusal, head.totals);
        compared.add::<C>(&head.read_vector(&mut numbers, reply, C::HAS_NAMES), work);
    }
    Ok(compared)
}
