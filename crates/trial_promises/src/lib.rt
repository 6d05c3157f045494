// Tried loads: statements alone, no code.
#![tactic(auto)]
