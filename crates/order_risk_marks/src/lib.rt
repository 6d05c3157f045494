// The order risk of an entry of a tested table, as marks.
#![tactic(auto)]

pub mod inner;
