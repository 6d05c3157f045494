// The share of a project's eligible modules that are planned.
#![tactic(auto)]

ghost use Rattle.std.specs.Prelude.{◌≡◌};
ghost use Rattle.arrangement.specs.OfProject.{as_named};
ghost use Rattle.shares.specs.Promise.{outcome_of, WrittenShare};

use arrangement::inner::read_named;
use current_columns::inner::ReadSpace;
use share_totals::Share;
use table::{ROW_LIMIT, Table};
use table_share::inner::share_of_table;
use tables::Refusal;

// The counts of eligible modules and of those that the whole analysis plans, with the quotient and the remainder of 1,000 times the second by the
// first.
pub fn share(table: &Table) -> Result<Share, Refusal>
    ensures { result ≡ outcome_of (as_named table.now) }
{
    let mut space = ReadSpace::EMPTY;
    let mut arranged = [0u32; ROW_LIMIT];
    let current = read_named(table, &mut space, &mut arranged)?;
    let counted = share_of_table(&current);
    Ok(counted)
}

// Writes the four numbers of a share to `out` from place 0. The count is 4.
pub fn write_share(table: &Table, out: &mut [u32]) -> Result<usize, Refusal>
    ensures { WrittenShare (as_named table.now) out.old result out.new }
{
    let counted = share(table)?;
    if out.len() < 4 {
        return Err(Refusal::ShortSlice);
    }
    out[..4].copy_from_slice(&[
        counted.eligible,
        counted.planned,
        counted.quotient,
        counted.remainder,
    ]);
    Ok(4)
}
