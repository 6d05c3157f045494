// The wrap plan: the plan from seeds, closed under the four rules.
#![tactic(auto)]

ghost use Rattle.table.specs.Lending.{as_lent};
ghost use Rattle.wrap_plan.specs.Promise.{PlanFromSeeds};

use current_columns::inner::ReadSpace;
use inner::plan_seeds;
use refusal::read_tested;
use seeds::inner::seeds_fit;
use table::Table;
use tables::Refusal;

pub mod inner;

// The plan from seeds: 0 or 1 for each module, written to `marks` from place 0. The count is that of the ones.
pub fn plan_from_seeds(table: &Table, seeds: &[u32], marks: &mut [u32]) -> Result<usize, Refusal>
    ensures { PlanFromSeeds (as_lent table.now) seeds.now marks.old result marks.new }
{
    let mut space = ReadSpace::EMPTY;
    let current = read_tested(table, &mut space)?;
    let n = current.modules();
    if !seeds_fit(seeds, n) {
        return Err(Refusal::Argument);
    }
    if marks.len() < n {
        return Err(Refusal::ShortSlice);
    }
    let count = plan_seeds(&current, seeds, &mut marks[..n]);
    Ok(count)
}
