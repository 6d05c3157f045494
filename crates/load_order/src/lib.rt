// A chunk's rows put in place by a key: the chunks that it imports, in load order.
#![tactic(auto)]

pub mod inner;
