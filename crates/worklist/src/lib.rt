// Planning by a worklist: modules are taken one by one from a list, and what the four rules ask for with each is listed.
#![tactic(auto)]

pub mod inner;
