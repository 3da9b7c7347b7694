// The sibling of the replay (document 02, No. 8) over the list of events: definitions in specs/, their laws in proofs/. The graph theory is in theory_junctions.
// The sibling itself is in the crate call_replay_junctions; its totals stand here.
#![tactic(auto)]

// What an accepted call returns: the queries, and the segments open at the end. A refused one returns a refusal of call_sizes.
#[derive(Clone, Copy, Debug, PartialEq, Eq)]
pub struct JunctionTotals {
    pub queries: usize,
    pub open: usize,
}
