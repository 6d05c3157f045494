// The analysed entries' roots, and the candidates of rules (iii) and (iv): the eligible modules that they reach.
#![tactic(auto)]

pub mod inner;
