// The columns that the visits of the actual order read, made once as one value: in which way each module executes, which module each record row triggers, where
// rows start, and the load order.
#![tactic(auto)]

pub mod inner;
