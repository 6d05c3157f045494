// A project's share, and the totals of a season.
#![tactic(auto)]

use std::marker::Model;

pub mod inner;

// The counts of eligible and of planned modules with the quotient and the remainder of 1,000 times the second by the first.
#[derive(Clone, Copy, PartialEq, Eq)]
pub struct Share {
    pub eligible: u32,
    pub planned: u32,
    pub quotient: u32,
    pub remainder: u32,
}

// Sums over the projects of a season: eligible modules, planned modules, refused projects. No more modules are planned than are eligible.
#[derive(Clone, Copy)]
pub struct Totals {
    pub eligible: u32,
    pub planned: u32,
    pub refused: u32,
}

impl Model for Totals {
    ghost use Rattle.std.specs.Prelude.{◌≤◌};
    ghost use Rattle.share_totals.specs.Sums.{Totals};

    ghost Value = { Totals };

    ghost view = { λ t. record { eligible = t.eligible; planned = t.planned; refused = t.refused } };

    ghost inverse = { λ v. record { eligible = v.eligible; planned = v.planned; refused = v.refused } };

    ghost invariant = { λ t. t.planned ≤ t.eligible };
}
