// No code: the four rules of "Plan from seeds", the plan, and their theory.
#![tactic(auto)]
