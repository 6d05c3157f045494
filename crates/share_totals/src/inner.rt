// For crates above: shares of counted modules, and totals by one step a project.
ghost use Rattle.std.specs.Prelude.{◌≡◌, ◌≤◌};
ghost use Rattle.share_totals.specs.Shares.{quotient_of, remainder_of, share_of};
ghost use Rattle.share_totals.specs.Sums.{none, added, total_numbers};
ghost use Rattle.share_totals.specs.Within.{Fits, Within};

use crate::{Share, Totals};
use tables::Refusal;

// The quotient of 1,000 times the planned by the eligible modules.
#[tactic(auto, using(crate::proofs::Quotients::quotients))]
fn quotient(eligible: u32, planned: u32) -> u32
    requires { planned ≤ eligible }
    ensures { result ≡ quotient_of eligible planned }
{
    if eligible == 0 {
        return 0;
    }
    (1000 * planned as u64 / eligible as u64) as u32
}

// The remainder.
#[tactic(auto, using(crate::proofs::Quotients::remainders))]
fn remainder(eligible: u32, planned: u32) -> u32
    ensures { result ≡ remainder_of eligible planned }
{
    if eligible == 0 {
        return 0;
    }
    (1000 * planned as u64 % eligible as u64) as u32
}

// The share of counted modules.
pub fn share_of(eligible: u32, planned: u32) -> Share
    requires { planned ≤ eligible }
    ensures { result ≡ share_of eligible planned }
{
    Share {
        eligible,
        planned,
        quotient: quotient(eligible, planned),
        remainder: remainder(eligible, planned),
    }
}

// The totals of no project.
pub fn no_project() -> Totals
    ensures { result ≡ none }
{
    Totals {
        eligible: 0,
        planned: 0,
        refused: 0,
    }
}

// The totals with a project more.
#[tactic(auto, unfolding(crate::specs::Sums::added))]
pub fn add(totals: Totals, outcome: Result<Share, Refusal>) -> Totals
    requires within { Within 10000 totals }
    requires fits { Fits outcome }
    ensures { result ≡ added totals outcome }
{
    match outcome {
        Ok(share) => Totals {
            eligible: totals.eligible + share.eligible,
            planned: totals.planned + share.planned,
            refused: totals.refused,
        },
        Err(_) => Totals {
            eligible: totals.eligible,
            planned: totals.planned,
            refused: totals.refused + 1,
        },
    }
}

// The numbers of the closing line.
pub fn total_numbers(totals: Totals) -> [u32; 5]
    ensures { result ≡ total_numbers totals }
{
    let eligible = totals.eligible;
    let planned = totals.planned;
    [
        eligible,
        planned,
        quotient(eligible, planned),
        remainder(eligible, planned),
        totals.refused,
    ]
}
