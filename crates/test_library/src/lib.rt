// Internal, for the tests alone: what the test programs and the slow versions share: lists and graphs, what calls are lent and what comes of them, tables whose
// entries are read and written, counts, random numbers, vectors as text, and the report. Nothing here calls the product.
#![tactic(auto)]

pub mod calls;
pub mod contractions;
pub mod counts;
pub mod edges;
pub mod print;
pub mod random;
pub mod refusals;
pub mod replays;
pub mod tables;
pub mod text;
pub mod vectors;
