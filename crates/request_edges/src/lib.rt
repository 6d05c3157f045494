// Edges between numbered places, made of the rows of two columns.
#![tactic(auto)]

pub mod inner;
