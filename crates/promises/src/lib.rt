// No code: what a buyer is told of the plans, each statement a named type in specs/ that proofs/ inhabits.
#![tactic(auto)]
