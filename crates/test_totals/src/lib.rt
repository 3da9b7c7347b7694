// Internal, for the tests alone: counts of the lists and of the graphs on which the product is compared with a slow version. By themselves, so that no test
// takes a minute to prove.
#![tactic(auto)]

pub mod graph_totals;
pub mod list_totals;
