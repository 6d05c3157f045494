// The words on lists that all crates share, and the few loops over one slice.
#![tactic(auto)]

pub mod inner;
