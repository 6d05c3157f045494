// No code: the text form of a project and of a result line, as renderings, and that a project's rendering has no other table.
#![tactic(auto)]
