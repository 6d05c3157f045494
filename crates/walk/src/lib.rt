// No code: the post-order walk and the closing of a set, each defined once, and their theory.
#![tactic(auto)]
