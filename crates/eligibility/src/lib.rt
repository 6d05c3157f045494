// Which modules are eligible. What the proofs look into stands here: the branch test of `inner` takes a line above a function for a call.
#![tactic(auto, unfolding(current_columns::specs::AsProject::project, crate::specs::Eligible::eligible))]

pub mod inner;
