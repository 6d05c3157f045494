// The ground of each module's sensitivity.
#![tactic(auto)]

ghost use Rattle.table.specs.Lending.{as_lent};
ghost use Rattle.grounds.specs.Promise.{ModuleGrounds};

use current_columns::inner::ReadSpace;
use inner::mark_grounds;
use refusal::read_tested;
use table::Table;
use tables::Refusal;

mod inner;

// The ground of each module: 0 for one that isn't sensitive, 1 for its own flag, 2 for a use that triggers a wrapped module, 3 for both; written to `marks`
// from place 0. The count is that of the grounds above 0.
pub fn grounds(table: &Table, marks: &mut [u32]) -> Result<usize, Refusal>
    ensures { ModuleGrounds (as_lent table.now) marks.old result marks.new }
{
    let mut space = ReadSpace::EMPTY;
    let current = read_tested(table, &mut space)?;
    let n = current.modules();
    if marks.len() < n {
        return Err(Refusal::ShortSlice);
    }
    let count = mark_grounds(&current, &mut marks[..n]);
    Ok(count)
}
