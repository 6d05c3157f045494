// What rule (i) asks for with a plan as it is given: the suffixes of all analysed entries.
#![tactic(auto)]

pub mod inner;
