// The steps of a visit in the module sort.
#![tactic(auto)]

pub mod inner;
