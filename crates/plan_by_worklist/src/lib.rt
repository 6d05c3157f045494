// The plan from seeds by a worklist: modules are taken one by one from a list, and what the four rules ask for with each is listed.
#![tactic(auto)]

ghost use Rattle.table.specs.Lending.{as_lent};
ghost use Rattle.wrap_plan.specs.Promise.{PlanFromSeeds};

use current_columns::inner::ReadSpace;
use refusal::read_tested;
use seeds::inner::seeds_fit;
use table::Table;
use tables::Refusal;
use worklist_plan::inner::plan_by_takings;

// The plan from seeds by a worklist: 0 or 1 for each module, written to `marks` from place 0. The count is that of the ones. It promises
// what `plan_from_seeds` does, and gets there in another way: that is what it is for.
pub fn plan_by_worklist(table: &Table, seeds: &[u32], marks: &mut [u32]) -> Result<usize, Refusal>
    ensures { PlanFromSeeds (as_lent table.now) seeds.now marks.old result marks.new }
{
    let mut space = ReadSpace::EMPTY;
    let current = read_tested(table, &mut space)?;
    let n = current.modules();
    if !seeds_fit(seeds, n) {
        return Err(Refusal::Argument);
    }
    if marks.len() < n {
        return Err(Refusal::ShortSlice);
    }
    let count = plan_by_takings(&current, seeds, &mut marks[..n]);
    Ok(count)
}
