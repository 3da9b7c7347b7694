// The response to an input of the right length: the tables filled from it, the replay, and its reply in print.
ghost use Rattle.std.specs.Prelude.{◌≡◌, List, ℕ, ◌≤◌, length};
ghost use Rattle.theory_timeline.specs.Call.{outcome};
ghost use Rattle.theory_timeline.specs.Program.{input_lent, printed, printed_input};
ghost use Rattle.theory_timeline.specs.Replay.{replay};
ghost use Rattle.program_printing.specs.Printing.{Wrote};
ghost use Rattle.program_reading.specs.Reading.{Read};

use call_sizes::Refusal;
use program_reading::Header;
use theory_timeline::Totals;

// Prints a reply to events with these X, over n junctions.
pub(crate) fn put_reply(
    out: &mut [u8],
    n: usize,
    x: &[u16],
    answers: &[u8],
    reply: Result<Totals, Refusal>,
) -> usize
    requires { (2048 ≤ length out.old) × (length x.now ≤ 32) × (length x.now ≤ length answers.now) }
    ensures { ((names work : List ℕ)
        → Wrote 0 (printed n (length x.now) x.now (outcome reply answers.now names work)) out.old out.new result)
        × (result ≤ 2048) }
{
    match reply {
        Ok(totals) => {
            let at = program_printing::put_queries(out, n, x, answers);
            program_printing::put_totals(out, at, totals)
        }
        Err(refusal) => program_printing::put_refused(out, 0, refusal),
    }
}

// Replays an input with this header, and prints the reply.
pub(crate) fn replay_input(input: &[u8], header: Header, work: &mut [u32], out: &mut [u8]) -> usize
    requires { Read header.n header.m header.t input.now × (2048 ≤ length out.old) }
    ensures wrote { Wrote 0 (printed_input work.old input.now header.p) out.old out.new result × (result ≤ 2048) }
    ensures work_after { work.new ≡ (replay (input_lent work.old input.now) header.p).work }
{
    let Header { n, m, t, p } = header;
    // Kept: fixed memory without a heap; a front of each table is filled and lent.
    let mut a = [0u16; 64];
    let mut b = [0u16; 64];
    let mut start = [0u16; 64];
    let mut x = [0u16; 32];
    let mut y = [0u16; 32];
    let mut answers = [0u8; 32];
    // Names are asked for by the replay and not printed.
    let mut names = [0u16; 32];
    program_reading::fill(input, 4, &mut a[..m]);
    program_reading::fill(input, 4 + m, &mut b[..m]);
    program_reading::fill(input, 4 + 2 * m, &mut start[..m]);
    program_reading::fill(input, 4 + 3 * m, &mut x[..t]);
    program_reading::fill(input, 4 + 3 * m + t, &mut y[..t]);
    let reply = call_replay::replay(
        n,
        m,
        t,
        p,
        &a[..m],
        &b[..m],
        &start[..m],
        &x[..t],
        &y[..t],
        &mut answers,
        &mut names,
        work,
    );
    put_reply(out, n, &x[..t], &answers, reply)
}
