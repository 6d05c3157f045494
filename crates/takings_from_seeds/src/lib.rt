// The worklist from seeds, shown: the list when all are taken, and how long it was after each number of takings.
#![tactic(auto)]

ghost use Rattle.table.specs.Lending.{as_lent};
ghost use Rattle.takings_from_seeds.specs.Promise.{TakingsFromSeeds};

use current_columns::inner::ReadSpace;
use refusal::read_tested;
use seeds::inner::seeds_fit;
use table::Table;
use tables::Refusal;
use worklist_plan::inner::list_takings;

// The list when all are taken, written to `list` from place 0 in the order of taking, and its length after each number of takings below the count, to `lengths`.
// The count is that of the listed modules.
pub fn takings_from_seeds(
    table: &Table,
    seeds: &[u32],
    list: &mut [u32],
    lengths: &mut [u32],
) -> Result<usize, Refusal>
    ensures { TakingsFromSeeds (as_lent table.now) seeds.now list.old lengths.old result list.new lengths.new }
{
    let mut space = ReadSpace::EMPTY;
    let current = read_tested(table, &mut space)?;
    let n = current.modules();
    if !seeds_fit(seeds, n) {
        return Err(Refusal::Argument);
    }
    if list.len() < n || lengths.len() < n {
        return Err(Refusal::ShortSlice);
    }
    let count = list_takings(&current, seeds, list, lengths);
    Ok(count)
}
