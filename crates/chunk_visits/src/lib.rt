// Chunk visits, through which the counters of a traversal are lent, on into the executions of the members.
#![tactic(auto)]

pub mod inner;
