// Runs contract on vectors, which it reads; on random graphs against a slow contraction, with counts of what was met among them; and at the limits: the full
// sizes, all nodes without an edge, sizes of one more, tables of one entry less, and the order of the refusals. Prints counts and replies.
#![tactic(auto)]

mod vectors;

use std::io;
use test_contraction_calls::{calls, limits};
use test_random::graphs;
use test_totals::graph_totals::Totals;

// Compares the random graphs, of which one table may be short.
fn run_random() -> Totals {
    let mut totals = Totals::default();
    for s in 0..40320 {
        let g = graphs::make(s);
        let lengths = calls::lengths(g.sizes, graphs::lending(s));
        let want = calls::slow_of_32(&g, lengths);
        let is_right = calls::run(&g, lengths, &want).agrees(want.reply);
        totals.add(&g, &want, is_right);
    }
    totals
}

fn main(rt: HostRuntime) -> io::Result<()> {
    vectors::report(&rt)?;
    run_random().report(&rt)?;
    limits::report_refusals(&rt)?;
    limits::report_full(&rt)
}
