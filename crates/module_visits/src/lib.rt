// Module visits, through which the counters of a traversal are lent: a module executes, and some modules in turn.
#![tactic(auto)]

pub mod inner;
