// The labels of chunks, over any graph.
#![tactic(auto)]

pub mod inner;
