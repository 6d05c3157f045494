// What the rules (ii) to (iv) ask for as a graph: from a planned module along edges to the requests that it makes.
#![tactic(auto)]

pub mod inner;
