// Actual order of an entry, and its hosts.
#![tactic(auto)]

ghost use Rattle.arrangement.specs.OfProject.{as_named};
ghost use Rattle.actual_order.specs.Promise.{ActualOrder};

use analysed_entries::inner::find_entry;
use arrangement::inner::read_arranged;
use current_columns::inner::ReadSpace;
use entry_run::inner::prepare_and_list;
use refusal::test_written;
use table::{ROW_LIMIT, Table};
use tables::Refusal;

// The actual order of an analysed entry, written to `order` from place 0, and its hosts, a place a module. The count is that of the listed modules.
#[tactic(auto, unfolding(table::specs::Table::read, table::specs::Table::current, arrangement::specs::OfProject::named, tables::specs::Readings::is_analysed))]
pub fn actual_order(
    table: &Table,
    root: u32,
    order: &mut [u32],
    hosts: &mut [u32],
) -> Result<usize, Refusal>
    ensures { ActualOrder (as_named table.now) root order.old hosts.old result order.new hosts.new }
{
    let written = test_written(table)?;
    let Some(found) = find_entry(&written, root) else {
        return Err(Refusal::Argument);
    };
    let modules = written.modules();
    if order.len() < modules {
        return Err(Refusal::ShortSlice);
    }
    if hosts.len() < modules {
        return Err(Refusal::ShortSlice);
    }
    let mut space = ReadSpace::EMPTY;
    let mut arranged = [0u32; ROW_LIMIT];
    let current = read_arranged(table, &mut space, &mut arranged);
    let entry = found.as_read(&current);
    let count = prepare_and_list(&entry, order, &mut hosts[..modules]);
    Ok(count)
}
