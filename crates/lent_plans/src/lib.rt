// No code: what a buyer is told of plans that he lends himself.
#![tactic(auto)]
