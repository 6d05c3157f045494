// The order risk of an entry.
#![tactic(auto)]

ghost use Rattle.arrangement.specs.OfProject.{as_named};
ghost use Rattle.at_risk.specs.Promise.{EntryOrderRisk};

use analysed_entries::inner::find_entry;
use arrangement::inner::read_arranged;
use current_columns::inner::ReadSpace;
use order_risk_marks::inner::mark_order_risk;
use refusal::test_written;
use table::{ROW_LIMIT, Table};
use tables::Refusal;

// The order risk of an analysed entry: 0 or 1 for each module, written to `marks` from place 0. The count is that of the ones. The members are those that names arrange; the
// cycle risk reads none, but the chunks' labels, so the two are two functions.
#[tactic(auto, unfolding(table::specs::Table::read, table::specs::Table::current, arrangement::specs::OfProject::named, tables::specs::Readings::is_analysed))]
pub fn order_risk(table: &Table, root: u32, marks: &mut [u32]) -> Result<usize, Refusal>
    ensures { EntryOrderRisk (as_named table.now) root marks.old result marks.new }
{
    let written = test_written(table)?;
    let Some(found) = find_entry(&written, root) else {
        return Err(Refusal::Argument);
    };
    let modules = written.modules();
    if marks.len() < modules {
        return Err(Refusal::ShortSlice);
    }
    let mut space = ReadSpace::EMPTY;
    let mut arranged = [0u32; ROW_LIMIT];
    let current = read_arranged(table, &mut space, &mut arranged);
    let entry = found.as_read(&current);
    let count = mark_order_risk(&entry, &mut marks[..modules]);
    Ok(count)
}
