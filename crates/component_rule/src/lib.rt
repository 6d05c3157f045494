// Rule (ii): the sensitive eligible members of a cyclic component that holds a planned module's chunk.
#![tactic(auto)]

pub mod inner;
