// Closing a plan by rounds: a pass of each rule, until one round adds nothing.
#![tactic(auto)]

pub mod inner;
