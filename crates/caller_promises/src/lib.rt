// Demand 3 for callers: statements alone, no code.
#![tactic(auto)]
