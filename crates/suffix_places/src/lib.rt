// Rule (i) for a list of modules: the earliest place of the list after which the rule asks for each module.
#![tactic(auto)]

pub mod inner;
