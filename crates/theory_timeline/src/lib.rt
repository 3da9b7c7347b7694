// The list of events over a network: definitions in specs/, their laws and demand 3 in proofs/. The replay itself is in the crate call_replay; its
// totals stand here, for demand 3 speaks of them, and the list that it is lent. The kinds of events are in call_kinds.
#![tactic(auto)]

// What an accepted replay returns: the queries, the segments open at the end, and kept. A refused one returns a refusal of call_sizes.
#[derive(Clone, Copy, Debug, PartialEq, Eq)]
pub struct Totals {
    pub queries: usize,
    pub open: usize,
    pub kept: usize,
}

// Internal: the sizes, the share and the five tables that a replay only reads, as a call is lent them: n junctions, m segments from a to b with their entries
// in the starting table, t events with their X and Y. That they fit together is not known before the checks.
#[derive(Clone, Copy)]
pub struct EventList<'a> {
    pub n: usize,
    pub m: usize,
    pub t: usize,
    pub p: usize,
    pub a: &'a [u16],
    pub b: &'a [u16],
    pub start: &'a [u16],
    pub x: &'a [u16],
    pub y: &'a [u16],
}
