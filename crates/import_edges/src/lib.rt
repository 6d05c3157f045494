// The kind 0 records as edges, and closing a set along edges.
#![tactic(auto)]

pub mod inner;
