// Taking one module of a worklist: what the four rules ask for with it planned is listed.
#![tactic(auto)]

pub mod inner;
