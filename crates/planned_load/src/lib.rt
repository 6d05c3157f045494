// A load with a plan carried out: its run, and its steps.
#![tactic(auto)]

pub mod inner;

// A step of a tried load: the module that is listed next, and its host.
#[derive(Clone, Copy, PartialEq, Eq)]
pub struct LoadStep {
    pub module: u32,
    pub host: u32,
}
