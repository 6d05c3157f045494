// The members of each chunk as rolldown arranges them.
#![tactic(auto)]

pub mod inner;
