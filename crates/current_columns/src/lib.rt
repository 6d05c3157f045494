// A tested table as it is read: record targets and dependencies are read through `newer`, once a call.
#![tactic(auto)]

pub mod inner;
