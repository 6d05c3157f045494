// No code: what a buyer is told of planning by a worklist.
#![tactic(auto)]
