// No code: the places of the request graph that the planned modules lead to are what the rules (ii) to (iv) ask for.
#![tactic(auto)]
