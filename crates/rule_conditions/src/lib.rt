// The lowest module that each of the four rules asks for with a plan as it is given, and that the plan lacks.
#![tactic(auto)]

pub mod inner;
