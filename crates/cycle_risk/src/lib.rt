// The cycle risk of an entry.
#![tactic(auto)]

ghost use Rattle.table.specs.Lending.{as_lent};
ghost use Rattle.at_risk.specs.Promise.{EntryCycleRisk};

use analysed_entries::inner::find_entry;
use current_columns::inner::{ReadSpace, read_table};
use inner::mark_cycle_risk;
use refusal::test_written;
use table::Table;
use tables::Refusal;

pub mod inner;

// The cycle risk of an analysed entry: 0 or 1 for each module, written to `marks` from place 0. The count is that of the ones.
#[tactic(auto, unfolding(table::specs::Table::read, table::specs::Table::current, tables::specs::Readings::is_analysed))]
pub fn cycle_risk(table: &Table, root: u32, marks: &mut [u32]) -> Result<usize, Refusal>
    ensures { EntryCycleRisk (as_lent table.now) root marks.old result marks.new }
{
    let written = test_written(table)?;
    let Some(found) = find_entry(&written, root) else {
        return Err(Refusal::Argument);
    };
    let modules = written.modules();
    if marks.len() < modules {
        return Err(Refusal::ShortSlice);
    }
    let mut space = ReadSpace::EMPTY;
    let current = read_table(table, &mut space);
    let entry = found.as_read(&current);
    let count = mark_cycle_risk(&entry, &mut marks[..modules]);
    Ok(count)
}
