// Internal, for the tests alone: a slow and simple version of the contraction, written from the words of document 01 and of document 02's requests 2 and 5. It
// calls nothing of the product. Graphs have at most 512 nodes and 512 edges.
#![tactic(auto)]

pub mod contraction;
