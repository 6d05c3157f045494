// Many entries walked together.
#![tactic(auto)]

ghost use Rattle.table.specs.Lending.{as_lent};
ghost use Rattle.entries_order.specs.Promise.{EntriesOrder};

use column_tests::inner::all_below;
use current_columns::inner::ReadSpace;
use inner::list_entries;
use refusal::read_tested;
use table::Table;
use tables::Refusal;

pub mod inner;

// The expected order of a list of module rows walked together, written from place 0.
#[tactic(auto, using(tables::proofs::Accepted::below_rows))]
pub fn entries_order(table: &Table, entries: &[u32], order: &mut [u32]) -> Result<usize, Refusal>
    ensures { EntriesOrder (as_lent table.now) entries.now order.old result order.new }
{
    let mut space = ReadSpace::EMPTY;
    let current = read_tested(table, &mut space)?;
    let modules = current.modules();
    if !all_below(entries, modules) {
        return Err(Refusal::Argument);
    }
    if order.len() < modules {
        return Err(Refusal::ShortSlice);
    }
    let count = list_entries(current.columns(), entries, order);
    Ok(count)
}
