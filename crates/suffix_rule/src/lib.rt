// Rule (i): from the first planned module of an analysed entry's expected sensitive order on, every eligible one.
#![tactic(auto)]

pub mod inner;
