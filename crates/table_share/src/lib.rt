// The share of a tested table.
#![tactic(auto)]

pub mod inner;
