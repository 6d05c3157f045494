// Rule (iii): a reached eligible module with a planned dependency and a kind 0 target that is planned or leads to a planned module.
#![tactic(auto)]

pub mod inner;
