// One line of an entry's page.
#![tactic(auto)]

ghost use Rattle.arrangement.specs.OfProject.{as_named};
ghost use Rattle.wall_line.specs.Promise.{PageLine};

use analysed_entries::inner::find_entry;
use arrangement::inner::read_arranged;
use current_columns::inner::ReadSpace;
use inner::put_whole_line;
use refusal::test_written;
use table::{ROW_LIMIT, Table};
use tables::Refusal;

pub mod inner;

// One line of an analysed entry's page, by its number from 0, written to `line` from place 0. The count is that of its bytes: 41, or 0 past the last.
#[tactic(auto, unfolding(table::specs::Table::read, table::specs::Table::current, arrangement::specs::OfProject::named, tables::specs::Readings::is_analysed))]
pub fn page_line(table: &Table, root: u32, number: u32, line: &mut [u8]) -> Result<usize, Refusal>
    ensures { PageLine (as_named table.now) root number line.old result line.new }
{
    let written = test_written(table)?;
    let Some(found) = find_entry(&written, root) else {
        return Err(Refusal::Argument);
    };
    if line.len() < 41 {
        return Err(Refusal::ShortSlice);
    }
    let mut space = ReadSpace::EMPTY;
    let mut arranged = [0u32; ROW_LIMIT];
    let current = read_arranged(table, &mut space, &mut arranged);
    let entry = found.as_read(&current);
    let count = put_whole_line(&entry, line, number as usize);
    Ok(count)
}
