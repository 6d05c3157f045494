// The modules of a page, in the order of its lines, and their places.
#![tactic(auto)]

pub mod inner;
