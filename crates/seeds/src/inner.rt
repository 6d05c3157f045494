// For crates above, on tested tables.
ghost use Rattle.std.specs.Prelude.{◌≡◌, length};
ghost use Rattle.tables.specs.Readings.{modules};
ghost use Rattle.tables.specs.Accepted.{Below};
ghost use Rattle.marks.specs.Steps.{looked, Owners};
ghost use Rattle.seeds.specs.Seeds.{seeds_fit};

use current_columns::inner::Current;
use marks::inner::mark_owners;
use table::ROW_LIMIT;

// Whether lent seeds fit n modules.
#[tactic(auto, using(crate::proofs::Fits::no_row, crate::proofs::Fits::all_fit))]
pub fn seeds_fit(seeds: &[u32], n: usize) -> bool
    ensures { result ≡ seeds_fit n seeds.now }
{
    seeds.len() <= ROW_LIMIT && seeds.iter().all(|seed| (*seed as usize) < n)
}

// Marks the eligible seeds.
pub fn mark_seeds(seeds: &[u32], eligible: &[u32], plan: &mut [u32])
    requires modules { length eligible.now ≡ length plan.old }
    requires seeds { Below (length plan.old) seeds.now }
    ensures { Owners seeds.now (looked 0 eligible.now seeds.now) (length seeds.now) plan.old plan.new }
{
    mark_owners(seeds, seeds, eligible, plan);
}

// Marks the eligible seeds of a table.
#[tactic(auto, unfolding(current_columns::specs::AsProject::project))]
pub fn mark_table_seeds(current: &Current, eligible: &[u32], plan: &mut [u32])
    requires eligible { length eligible.now ≡ modules current.now }
    requires plan { length plan.old ≡ modules current.now }
    ensures { Owners current.now.seed (looked 0 eligible.now current.now.seed) (length current.now.seed) plan.old plan.new }
{
    let columns = current.columns();
    mark_seeds(columns.seed, eligible, plan);
}
