// The search of the import circles: meeting a module, and writing the path that it closes.
#![tactic(auto)]

pub mod inner;
mod places;
