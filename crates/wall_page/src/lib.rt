// The page of an entry by grounds and a plan that were made before: a program makes these once for all entries.
#![tactic(auto)]

ghost use Rattle.arrangement.specs.OfProject.{as_named};
ghost use Rattle.wall_page.specs.Promise.{EntryPage};

use analysed_entries::inner::find_entry;
use arrangement::inner::read_arranged;
use current_columns::inner::ReadSpace;
use entry_pages::inner::put_entry_text;
use refusal::test_written;
use table::{ROW_LIMIT, Table};
use tables::Refusal;

// The page of an analysed entry, written to `page` from place 0. The first grounds, and the first marks of the plan, one a module, say which modules are
// sensitive and planned. The count is that of the page's bytes.
#[tactic(auto, unfolding(table::specs::Table::read, table::specs::Table::current, arrangement::specs::OfProject::named, tables::specs::Readings::is_analysed))]
pub fn entry_page(
    table: &Table,
    grounds: &[u32],
    plan: &[u32],
    root: u32,
    page: &mut [u8],
) -> Result<usize, Refusal>
    ensures { EntryPage (as_named table.now) root grounds.now plan.now page.old result page.new }
{
    let written = test_written(table)?;
    let Some(found) = find_entry(&written, root) else {
        return Err(Refusal::Argument);
    };
    let modules = written.modules();
    if grounds.len() < modules || plan.len() < modules {
        return Err(Refusal::ShortSlice);
    }
    if page.len() < 41 * modules {
        return Err(Refusal::ShortSlice);
    }
    let mut space = ReadSpace::EMPTY;
    let mut arranged = [0u32; ROW_LIMIT];
    let current = read_arranged(table, &mut space, &mut arranged);
    let entry = found.as_read(&current);
    let count = put_entry_text(&entry, &grounds[..modules], &plan[..modules], page, None);
    Ok(count)
}
