// The import circles of a tested table: counted first, and then written to two slices if they fit.
#![tactic(auto)]

pub mod inner;
