// No code: document 01's marked cases as one table under one theorem.
#![tactic(auto)]
