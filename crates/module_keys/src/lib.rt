// The keys by which rolldown arranges a chunk's modules.
#![tactic(auto)]

pub mod inner;
