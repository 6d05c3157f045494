// In which way each module executes, and which module each record row triggers.
#![tactic(auto)]

pub mod inner;
