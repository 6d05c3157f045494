// Module numbers and sorted list.
#![tactic(auto)]

ghost use Rattle.table.specs.Lending.{as_lent};
ghost use Rattle.sort_modules.specs.Promise.{SortModules};

use current_columns::inner::ReadSpace;
use inner::sort_table;
use refusal::read_tested;
use table::{MODULE_LIMIT, Table};
use tables::Refusal;

pub mod inner;

// The number of each module, and the list of the normal modules in the order of their numbers, from place 0. The count is that of the listed modules.
pub fn sort_modules(
    table: &Table,
    numbers: &mut [u32],
    sorted: &mut [u32],
) -> Result<usize, Refusal>
    ensures { SortModules (as_lent table.now) numbers.old sorted.old result numbers.new sorted.new }
{
    let mut space = ReadSpace::EMPTY;
    let current = read_tested(table, &mut space)?;
    let modules = current.modules();
    if numbers.len() < modules || sorted.len() < modules {
        return Err(Refusal::ShortSlice);
    }
    let mut marks = [0u32; MODULE_LIMIT];
    let count = sort_table(
        &current,
        &mut marks[..modules],
        &mut numbers[..modules],
        sorted,
    );
    Ok(count)
}
