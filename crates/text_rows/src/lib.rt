// Reading the lists of a text: the line of names of each, and its values row by row in one array.
#![tactic(auto)]

mod fields;
pub mod inner;
