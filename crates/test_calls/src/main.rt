// Runs the small calls: the sizes at their limits, the open set against a table of marks, the reader's call, the check number against a fold by the
// remainder, the kinds of all numbers against the rows of document 01's table. Prints replies and counts.
#![tactic(auto)]

use std::io;
use test_library::counts::Count;
use test_library::refusals::Refusal;
use test_library::replays::Answers;
use test_library::{print, random, refusals, tables};

// The number by which the sizes are refused, 0 where they are accepted.
fn code(n: usize, m: usize, t: usize, k: usize) -> usize {
    match call_sizes::Sizes::check(n, m, t, k) {
        Ok(_) => 0,
        Err(refusal) => refusal.code(),
    }
}

fn change(held: [u64; 128], s: usize, opens: bool) -> [u64; 128] {
    if opens {
        return call_open_set::opened(held, s);
    }
    call_open_set::closed(held, s)
}

// Opens and closes random segments in the set and in a table of marks: whether the two differ then.
fn differ(seed: usize) -> bool {
    let mut held = [0u64; 128];
    let mut marks = [false; 8192];
    for i in 0..2000 {
        let s = random::at(seed, 0, i, 8192);
        let opens = random::at(seed, 1, i, 3) > 0;
        let next = change(held, s, opens);
        held = next;
        tables::mark(&mut marks, s, opens);
    }
    let count_differs = call_open_set::count(held) != tables::ones(&marks);
    let differs = |(s, mark): (usize, &bool)| call_open_set::is_open(held, s) != *mark;
    count_differs || marks.iter().enumerate().any(differs)
}

// The check number of the first t bytes.
fn check_number(table: &[u8], t: usize) -> Result<u32, Refusal> {
    match call_check_number::check_number(table, t) {
        Ok(number) => Ok(number),
        Err(refusal) => Err(Refusal {
            code: refusal.code(),
            place: refusal.place(),
        }),
    }
}

// The number by which it is refused, 0 where it is accepted; with 100 more for each place, which must be 0.
fn number_code(table: &[u8], t: usize) -> usize {
    let refusal = refusals::printed(&check_number(table, t));
    refusal
        .code
        .saturating_add(refusal.place.saturating_mul(100))
}

// The check number by document 02's words: it starts at 1, and each byte a turns h into 31h + a + 1, reduced modulo 4,294,967,296.
fn fold(table: &[u8], t: usize) -> u64 {
    let with_byte = |h: u64, a: &u8| (31 * (h % 4294967296) + u64::from(*a) + 1) % 4294967296;
    table.iter().take(t).fold(1, with_byte)
}

// Random bytes below `most`.
fn random_table(seed: usize, most: usize) -> Answers {
    let mut table = [0; 4104];
    for (i, byte) in table.iter_mut().enumerate() {
        *byte = (random::at(seed, 2, i, most) % 256) as u8;
    }
    table
}

// Changes one of the first t bytes.
fn change_byte(table: &mut Answers, seed: usize, t: usize) {
    let i = random::at(seed, 5, 0, t);
    let more = random::at(seed, 6, 0, 255) % 255 + 1;
    if i < 4104 {
        table[i] = table[i].wrapping_add(more as u8);
    }
}

// Of random tables: how many have a check number that differs from the fold, and how many keep theirs where one byte is changed.
#[derive(Clone, Copy, Default)]
struct Numbers {
    differing: Count,
    staying: Count,
}

impl Numbers {
    // Counts table `seed`. Every second one has any bytes, the others have answers; t is 1 to 4,096.
    fn add(&mut self, seed: usize) {
        let mut table = random_table(seed, seed % 2 * 252 + 4);
        let t = random::at(seed, 4, 0, 4096) % 4096 + 1;
        let before = check_number(&table, t);
        let is_as_folded = before.is_ok_and(|h| u64::from(h) == fold(&table, t));
        self.differing.add_if(!is_as_folded);
        change_byte(&mut table, seed, t);
        self.staying.add_if(before == check_number(&table, t));
    }
}

// The number of the row of document 01's table whose first column holds x, 3 where none does. The rows are tried from the last to the first, so that a number
// of two rows would differ from the kind, which is that of the first.
fn row_of(x: u16, n: usize) -> u32 {
    match x {
        65534 => 2,
        65535 => 1,
        _ if usize::from(x) < n => 0,
        _ => 3,
    }
}

// Of all 65,536 numbers, how many have a kind that is not that of their row.
fn kinds_wrong(n: usize) -> usize {
    let kind = |x: u16| call_kinds::kind_number(call_kinds::kind_of(x, n));
    (0..=u16::MAX).filter(|x| kind(*x) != row_of(*x, n)).count()
}

// The sizes at their limits, the open set and the reader's call.
fn report_small(rt: &impl Print) -> io::Result<()> {
    println!(rt;
        "4096 junctions refused by {}",
        code(4096, 8192, 4096, 8192)
    )?;
    println!(rt; "4097 junctions refused by {}", code(4097, 0, 0, 0))?;
    println!(rt; "8193 segments refused by {}", code(0, 8193, 0, 0))?;
    println!(rt; "4097 events refused by {}", code(0, 0, 4097, 0))?;
    println!(rt; "8193 entries refused by {}", code(0, 0, 0, 8193))?;
    println!(rt; "no sizes refused by {}", code(0, 0, 0, 0))?;
    let table = [2u8, 0, 1, 3];
    let rows = [
        (
            "open sets that differ from a table",
            (1..4).filter(|seed| differ(*seed)).count(),
        ),
        (
            "first 3 of 4 answers",
            call_answers::answers(&table, 3).len(),
        ),
        (
            "first 4 of 4 answers",
            call_answers::answers(&table, 4).len(),
        ),
        (
            "first 5 of 4 answers",
            call_answers::answers(&table, 5).len(),
        ),
    ];
    print::counts(rt, &rows)
}

// Of 512 random tables.
fn report_random_numbers(rt: &impl Print) -> io::Result<()> {
    let mut numbers = Numbers::default();
    for seed in 0..512 {
        numbers.add(seed);
    }
    let rows = [
        ("check numbers that differ from a fold", numbers.differing),
        (
            "check numbers that stay where one byte changes",
            numbers.staying,
        ),
    ];
    print::counts(rt, &rows)
}

fn report_numbers(rt: &impl Print) -> io::Result<()> {
    let example = [3u8, 3, 1, 3, 2];
    let largest = [117u8, 30, 18, 28, 23, 2];
    let one = [0u8, 1, 2, 0, 2, 0, 0, 0, 0, 1, 0, 0, 1];
    let other = [1u8, 0, 0, 0, 0, 0, 2, 1, 0, 0, 2, 1, 0];
    let number = |table: &[u8], t: usize| check_number(table, t).unwrap_or(0);
    let rows = [
        ("check number of no bytes", number(&example, 0)),
        ("of one byte, 3", number(&example, 1)),
        ("of the example's five", number(&example, 5)),
        ("of six bytes that have the largest", number(&largest, 6)),
        ("of thirteen answers", number(&one, 13)),
        ("of thirteen other answers", number(&other, 13)),
    ];
    print::counts(rt, &rows)?;
    println!(rt;
        "first 6 of 5 bytes refused by {}",
        number_code(&example, 6)
    )?;
    println!(rt;
        "first 4096 of 5 bytes refused by {}",
        number_code(&example, 4096)
    )?;
    println!(rt;
        "first 4097 of 5 bytes refused by {}",
        number_code(&example, 4097)
    )
}

fn report_kinds(rt: &impl Print) -> io::Result<()> {
    let mut wrong = Count::default();
    for n in [0, 1, 2, 176, 4095, 4096] {
        wrong.add(kinds_wrong(n));
    }
    print!(rt;
        "kinds that differ from the table's rows, of all numbers with 0, 1, 2, 176, 4095 and "
    )?;
    println!(rt; "4096 junctions: {wrong}")
}

fn main(rt: HostRuntime) -> io::Result<()> {
    report_small(&rt)?;
    report_random_numbers(&rt)?;
    report_numbers(&rt)?;
    report_kinds(&rt)
}
