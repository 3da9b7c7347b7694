// Internal, for the tests alone: a slow and simple version of the replay, written from the words of document 01 and of document 02's requests 1, 3, 5 and 7.
// Nothing here calls the product. Networks have at most 512 junctions and 512 segments, but for rings, which may have the full size.
#![tactic(auto)]

pub mod replay;
mod rings;
pub mod roads;
