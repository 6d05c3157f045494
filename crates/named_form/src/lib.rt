// The text form with the list of names: definitions and laws, no code.
#![tactic(auto)]
