// Rule (i) in batches: when all of a batch are taken, what the rule asks for after each place of the next one is noted.
#![tactic(auto)]

pub mod inner;
