// No code: what a buyer is told of a load with the plan carried out.
#![tactic(auto)]
