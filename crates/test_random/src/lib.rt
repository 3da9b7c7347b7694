// Internal, for the tests alone: random networks, contractions and lists. Nothing here calls the product.
#![tactic(auto)]

pub mod graphs;
pub mod lists;
pub mod networks;
