// For crates above, on tested tables and names.
ghost use Rattle.std.specs.Prelude.{◌≡◌, ◌≤◌, true, length, None};
ghost use Rattle.tables.specs.Readings.{modules, chunks};
ghost use Rattle.names.specs.Names.{names_fit};
ghost use Rattle.table.specs.Lending.{as_lent};
ghost use Rattle.merge_sort.specs.inner.Held.{key_at};
ghost use Rattle.module_keys.specs.Keys.{key_of};
ghost use Rattle.arrangement.specs.Arrangement.{arranged};
ghost use Rattle.refusal.specs.Reading.{ReadAs};
ghost use Rattle.arrangement.specs.OfProject.{arranged_of, as_named};
ghost use Rattle.arrangement.specs.inner.Rows.{Members, Fit};

use current_columns::inner::{Columns, Current, ReadSpace, read_table};
use lists::inner::copy_over;
use merge_sort::inner::Keys;
use module_keys::inner::find_keys;
use refusal::test;
use sort_modules::inner::sort_table;
use table::{MODULE_LIMIT, ROW_LIMIT, Table};
use tables::Refusal;
use tables::inner::first_row;

// Sorts the members of each chunk in place, by keys without ties; the load order's sort keeps ties as they stand.
fn sort_chunks(keys: &Keys, member_chunk: &[u32], members: &mut [u32], chunks: usize)
    requires { Members member_chunk.now members.old chunks }
    ensures { members.new ≡ arranged (key_at keys.now) chunks member_chunk.now members.old }
{
    let mut start = 0;
    // by number: where a chunk's members end is looked up
    for c in 0..chunks {
        let end = first_row(member_chunk, c + 1);
        keys.sort(&mut members[start..end]);
        start = end;
    }
}

// Arranges the members of each chunk, a place a member row.
#[tactic(auto, using(crate::proofs::OfProject::keys_arranged), unfolding(current_columns::specs::AsProject::project))]
fn arrange(columns: &Columns, names: &[u8], numbers: &[u32], out: &mut [u32])
    requires fit { Fit columns.now names.now numbers.now }
    requires places { length out.old ≡ length columns.now.member }
    ensures { out.new ≡ arranged (key_of names.now columns.now.normal columns.now.record_module columns.now.sensitive numbers.now) (chunks columns.now) columns.now.member_chunk columns.now.member }
{
    let modules = columns.normal.len();
    let mut groups = [0u32; MODULE_LIMIT];
    let groups = &mut groups[..modules];
    let mut places = [0usize; MODULE_LIMIT];
    let places = &mut places[..modules];
    find_keys(columns, names, numbers, groups, places);
    let keys = Keys {
        groups,
        places,
        names,
    };
    copy_over(columns.member, out);
    sort_chunks(&keys, columns.member_chunk, out, columns.order.len());
}

// The members of a table that has names, arranged, a place a member row.
#[tactic(auto, using(crate::proofs::OfProject::arranging_fit), unfolding(crate::specs::OfProject::arranged_of, crate::specs::OfProject::key_in))]
pub fn arrange_members(current: &Current, names: &[u8], out: &mut [u32])
    requires places { length out.old ≡ length current.now.member }
    requires named { names_fit (modules current.now) names.now ≡ true }
    ensures { out.new ≡ arranged_of current.now names.now }
{
    let modules = current.modules();
    let mut marks = [0u32; MODULE_LIMIT];
    let marks = &mut marks[..modules];
    let mut numbers = [0u32; MODULE_LIMIT];
    let numbers = &mut numbers[..modules];
    let mut sorted = [0u32; MODULE_LIMIT];
    let sorted = &mut sorted[..modules];
    sort_table(current, marks, numbers, sorted);
    arrange(current.columns(), names, numbers, out);
}

// A table that passed the tests, as it is read, its members arranged if it has names.
#[tactic(auto, using(crate::proofs::OfProject::reading), unfolding(current_columns::specs::AsProject::project))]
pub fn read_arranged<'a, 't: 'a>(
    table: &Table<'t>,
    space: &'a mut ReadSpace,
    arranged: &'a mut [u32; ROW_LIMIT],
) -> Current<'a>
    requires { (as_lent table.now).refused ≡ None }
    ensures { result ≡ (as_named table.now).project }
{
    let current = read_table(table, space);
    if table.names.len() == 0 {
        return current;
    }
    let columns = current.columns();
    let members = &mut arranged[..columns.member.len()];
    arrange_members(&current, table.names, members);
    current.with_members(members)
}

// Tests a table with its names, and gives it as it is read, its members arranged if it has names.
pub fn read_named<'a, 't: 'a>(
    table: &Table<'t>,
    space: &'a mut ReadSpace,
    arranged: &'a mut [u32; ROW_LIMIT],
) -> Result<Current<'a>, Refusal>
    ensures { ReadAs (as_named table.now) result }
{
    test(table)?;
    Ok(read_arranged(table, space, arranged))
}
