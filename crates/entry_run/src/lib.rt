// The run of an entry in its packed chunks, with the table's wraps or with others: the modules that it executes, in order, and their hosts.
#![tactic(auto)]

pub mod inner;
