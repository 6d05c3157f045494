// No code: ECMA-262's module evaluation, that it executes modules in the post-order of the walk, and what that says of a project.
#![tactic(auto)]
