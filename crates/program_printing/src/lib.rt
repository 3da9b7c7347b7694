// The output: numbers in base ten, one line for each query, the totals, or the refusal. Each function writes its text at `at` and answers where the next goes.
// Kept: the promise that the whole text is written; no clause of std calls a `write!` Ok where there is room, so numbers and texts are put by hand.
#![tactic(auto)]

ghost use Rattle.std.specs.Prelude.{[], ◌+◌, ◌*◌, ◌<◌, ◌≤◌, if◌then◌else◌, length};
ghost use Rattle.call_kinds.specs.Kinds.{is_query, kind_of};
ghost use Rattle.call_sizes.specs.Numbers.{number_of, place_of};
ghost use Rattle.theory_timeline.specs.Program.{decimal, query_line, query_lines, totals_line, refused_line};
ghost use Rattle.program_printing.specs.Printing.{Wrote};

use call_sizes::Refusal;
use theory_timeline::Totals;

// Writes a text.
fn put_text(out: &mut [u8], at: usize, text: &[u8]) -> usize
    requires { at + length text.now ≤ length out.old }
    ensures { Wrote at text.now out.old out.new result }
{
    let end = at + text.len();
    out[at..end].copy_from_slice(text);
    end
}

// Writes a number: the digits in front of the last one, then the last one.
#[tactic(auto, using(crate::proofs::TextLaws::number_end, crate::proofs::TextLaws::decimal_length, theory_timeline::proofs::Decimals::decimal_one))]
fn put_number(out: &mut [u8], at: usize, n: usize) -> usize
    requires { at + length (decimal n) ≤ length out.old }
    ensures { Wrote at (decimal n) out.old out.new result }
{
    if n < 10 {
        out[at] = 48 + n as u8;
        return at + 1;
    }
    let next = put_number(out, at, n / 10);
    out[next] = 48 + (n % 10) as u8;
    next + 1
}

// Writes the line of a query.
#[tactic(auto, using(crate::proofs::TextLaws::text_end, crate::proofs::TextLaws::number_end, crate::proofs::TextLaws::decimal_most))]
fn put_query(out: &mut [u8], at: usize, i: usize, answer: u8) -> usize
    requires { at + 42 ≤ length out.old }
    ensures { Wrote at (query_line i answer) out.old out.new result × (result ≤ at + 42) }
{
    let a = put_number(out, at, i);
    let b = put_text(out, a, b" ");
    let c = put_number(out, b, usize::from(answer));
    put_text(out, c, b"\n")
}

// Internal: writes the line of the totals.
#[tactic(auto, using(crate::proofs::TextLaws::text_end, crate::proofs::TextLaws::number_end, crate::proofs::TextLaws::decimal_most))]
pub fn put_totals(out: &mut [u8], at: usize, totals: Totals) -> usize
    requires { at + 78 ≤ length out.old }
    ensures { Wrote at (totals_line totals.queries totals.«open» totals.kept) out.old out.new result }
{
    let a = put_text(out, at, b"asks ");
    let b = put_number(out, a, totals.queries);
    let c = put_text(out, b, b" open ");
    let d = put_number(out, c, totals.open);
    let e = put_text(out, d, b" kept ");
    let f = put_number(out, e, totals.kept);
    put_text(out, f, b"\n")
}

// Internal: writes the line of a refusal by any number, at any place.
#[tactic(auto, using(crate::proofs::TextLaws::text_end, crate::proofs::TextLaws::number_end, crate::proofs::TextLaws::decimal_most))]
pub fn put_refused_line(out: &mut [u8], at: usize, code: usize, place: usize) -> usize
    requires { at + 53 ≤ length out.old }
    ensures { Wrote at (refused_line code place) out.old out.new result }
{
    let a = put_text(out, at, b"refused ");
    let b = put_number(out, a, code);
    let c = put_text(out, b, b" at ");
    let d = put_number(out, c, place);
    put_text(out, d, b"\n")
}

// Internal: writes the line of a refusal.
pub fn put_refused(out: &mut [u8], at: usize, refusal: Refusal) -> usize
    requires { at + 53 ≤ length out.old }
    ensures { Wrote at (refused_line (number_of refusal) (place_of refusal)) out.old out.new result }
{
    put_refused_line(out, at, refusal.code(), refusal.place())
}

// Writes the line of event i with this X and this answer, where it is a query of n junctions.
fn put_event(out: &mut [u8], at: usize, i: usize, n: usize, x: u16, answer: u8) -> usize
    requires { at + 42 ≤ length out.old }
    ensures { Wrote at (if is_query (kind_of n x) then query_line i answer else []) out.old out.new result
        × (result ≤ at + 42) }
{
    if call_kinds::is_query(x, n) {
        return put_query(out, at, i, answer);
    }
    at
}

// Internal: writes the lines of the queries among the events, which have these X, over n junctions.
pub fn put_queries(out: &mut [u8], n: usize, x: &[u16], answers: &[u8]) -> usize
    requires { (42 * length x.now ≤ length out.old) × (length x.now ≤ 32) × (length x.now ≤ length answers.now) }
    ensures { Wrote 0 (query_lines n x.now answers.now 0 (length x.now)) out.old out.new result
        × (result ≤ 42 * length x.now) }
{
    let mut at = 0;
    // The lines of the events before i are written.
    for (i, (&event_x, &answer)) in x.iter().zip(answers).enumerate() {
        at = put_event(out, at, i, n, event_x, answer);
    }
    at
}
