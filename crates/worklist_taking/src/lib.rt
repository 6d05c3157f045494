// No code: what holds of a worklist between two takings, and that a step keeps it.
#![tactic(auto)]
