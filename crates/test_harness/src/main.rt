// Runs what no other test program does of what they rest on: vectors of lines against a stub, the numbers of a line, and the slow contraction of more
// than 32 nodes beside the product's. Prints counts and numbers.
#![tactic(auto)]

use std::io;
use test_contraction_calls::calls;
use test_library::calls::Lending;
use test_library::contractions::{Graph, Small};
use test_library::replays::{Lengths, List, ReplayCall, Replayed, Reply, Sizes, Totals};
use test_library::text::Numbers;
use test_library::{contractions, print, tables, text, vectors};

// A stub in the place of a replay: it answers an event with Y, names it by X where there is a name table, and returns the first entries of A, B and the starting
// table.
struct Stub;

fn totals(list: &List) -> Totals {
    Totals {
        queries: tables::at(&list.segments.from, 0),
        open: tables::at(&list.segments.to, 0),
        kept: tables::at(&list.start, 0),
    }
}

fn write(list: &List, lengths: Lengths, answers: &mut [u8], names: &mut [u16]) {
    for (answer, y) in answers.iter_mut().zip(list.y.iter()).take(list.sizes.t) {
        *answer = (*y % 256) as u8;
    }
    if lengths.names > 0 {
        for (name, x) in names.iter_mut().zip(list.x.iter()).take(list.sizes.t) {
            *name = *x;
        }
    }
}

// Whether it names roads is not said.
impl ReplayCall for Stub {
    // By the slow version the starting table has zeros alone.
    fn slow(list: &List, lengths: Lengths, _ring: Option<usize>) -> Replayed {
        let mut replayed = Replayed {
            reply: Ok(Totals {
                kept: 0,
                ..totals(list)
            }),
            answers: [test_library::calls::BEFORE; 4104],
            names: [u16::from(test_library::calls::BEFORE); 8200],
            words_wrong: 0,
        };
        write(list, lengths, &mut replayed.answers, &mut replayed.names);
        replayed
    }

    fn required(_sizes: Sizes) -> usize {
        0
    }

    fn call(
        list: &List,
        lengths: Lengths,
        answers: &mut [u8],
        names: &mut [u16],
        _work: &mut [u32],
    ) -> Reply {
        write(list, lengths, answers, names);
        Ok(totals(list))
    }
}

// Standard input has 125 lines, two that end in CR LF and the last without ; at its end. One in three has no names, one is accepted
// at a place. Three are wrong: by an answer, by a name, by a refusal. Of 40 the starting table begins with 1.
fn report_vectors(rt: &(impl Input + Print)) -> io::Result<()> {
    let compared = vectors::compare::<Stub>(rt, &mut [0; 8])?;
    let rows = [
        ("vectors of lines", compared.vectors),
        ("wrong", compared.wrong),
        ("that the slow version differs on", compared.slow_differs),
    ];
    print::counts(rt, &rows)
}

// Numbers of up to four digits, and of more, of which the last four count.
fn report_digits(rt: &impl Print) -> io::Result<()> {
    let rows = [
        ("number of no digit", text::number(b"")),
        ("of ff", text::number(b"ff")),
        ("of 0A0a", text::number(b"0A0a")),
        ("of 12345", text::number(b"12345")),
        (
            "bytes of a vector of eight",
            text::vector("00010002;").len(),
        ),
        ("without ; at its end", text::vector("00010002").len()),
        ("of ; alone", text::vector(";").len()),
    ];
    print::counts(rt, &rows)
}

// A vector of thirteen numbers, the last with two digits: ten of them, then three, of which a table has room for two.
fn report_numbers(rt: &impl Print) -> io::Result<()> {
    let line = "0001000200030004000500060007000800090010fffe00fe1f;";
    let mut numbers = Numbers::new(text::vector(line));
    let row = numbers.row();
    let mut table = [7; 2];
    numbers.copy(&mut table, 3);
    let last = numbers.next();
    let behind = numbers.next();
    let mut other = [7; 2];
    numbers.copy(&mut other, 1);
    let rows = [
        ("first number of a row", row[0]),
        ("tenth", row[9]),
        ("first of a table", usize::from(table[0])),
        ("second", usize::from(table[1])),
        ("the next", last),
        ("behind the last", behind),
        ("first of a table that takes one", usize::from(other[0])),
        ("second, as before", usize::from(other[1])),
    ];
    print::counts(rt, &rows)
}

// A star of 40 leaves, all of them active, so that its small graph has 41 nodes.
fn star() -> Graph {
    let sizes = contractions::Sizes {
        n: 41,
        m: 40,
        k: 40,
    };
    let mut star = Graph::filled(sizes, 0);
    for i in 0..40 {
        tables::set(&mut star.edges.to, i, i + 1);
        tables::set(&mut star.names, i, i + 100);
        tables::set(&mut star.active, i, i + 1);
    }
    star
}

fn report_star(rt: &impl Print) -> io::Result<()> {
    let star = star();
    let lengths = calls::lengths(star.sizes, Lending::default());
    let is_product = |small: &Small| usize::from(calls::run(&star, lengths, small).agrees(
        small.reply,
    ));
    let edges = |small: &Small| small.reply.map_or(0, |counts| counts.edges);
    let slow = calls::slow(&star, lengths);
    let of_32 = calls::slow_of_32(&star, lengths);
    let rows = [
        ("edges of the small graph of a star", edges(&slow)),
        ("as the product has it", is_product(&slow)),
        ("edges among its first 32 nodes", edges(&of_32)),
        ("as the product has it", is_product(&of_32)),
    ];
    print::counts(rt, &rows)
}

fn main(rt: HostRuntime) -> io::Result<()> {
    report_vectors(&rt)?;
    report_digits(&rt)?;
    report_numbers(&rt)?;
    report_star(&rt)
}
