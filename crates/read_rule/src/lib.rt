// Rule (iv): a reached eligible module with `reads` 1 and a statement whose reference touches the plan.
#![tactic(auto)]

pub mod inner;
