// No code: what holds of the import circles.
#![tactic(auto)]
