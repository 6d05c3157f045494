// The plan from seeds by a worklist, of a tested table: the request graph is made, then its run.
#![tactic(auto)]

pub mod inner;
