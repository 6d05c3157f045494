// The risk of an entry: its order risk and its cycle risk, joined.
#![tactic(auto)]

pub mod inner;
