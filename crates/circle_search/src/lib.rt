// The search of the import circles: definitions and theory, no code.
#![tactic(auto)]
