// The names of a project's modules: the tests of their form.
#![tactic(auto)]

ghost use Rattle.std.specs.Prelude.{◌≡◌};
ghost use Rattle.names.specs.Names.{names_in, names_sized};

use inner::{count_lines, last_width};

pub mod inner;

// Whether the names are as many lines as a list may have rows.
#[tactic(auto, unfolding(crate::specs::Names::names_sized))]
pub fn names_sized(names: &[u8]) -> bool
    ensures { result ≡ names_sized names.now }
{
    count_lines(names) <= 16384
}

// Whether the names are those of so many modules, or none at all.
#[tactic(auto, using(crate::proofs::Lines::forms))]
pub fn names_in(names: &[u8], modules: usize) -> bool
    ensures { result ≡ names_in modules names.now }
{
    if names.is_empty() {
        return true;
    }
    if last_width(names) != 0 {
        return false;
    }
    count_lines(names) == modules
}
