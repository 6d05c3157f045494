// The risk of an entry over its two orders.
#![tactic(auto)]

pub mod inner;
