// No code: witnesses for the premises of the promises, and that each premise is needed.
#![tactic(auto)]
