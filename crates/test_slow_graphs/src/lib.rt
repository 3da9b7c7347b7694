// Internal, for the tests alone: what the slow contraction and the slow replay share: answers, classes and kept classes from document 01's words, by removing
// edges and taking classes away. Nothing here calls the product. Graphs have at most 512 nodes and 512 edges.
#![tactic(auto)]

pub mod graphs;
