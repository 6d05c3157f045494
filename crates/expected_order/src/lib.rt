// Expected order of an entry.
#![tactic(auto)]

ghost use Rattle.table.specs.Lending.{as_lent};
ghost use Rattle.expected_order.specs.Promise.{ExpectedOrder};

use current_columns::inner::ReadSpace;
use inner::list_expected;
use refusal::read_tested;
use table::{MODULE_LIMIT, Table};
use tables::Refusal;

pub mod inner;

// The expected order of a module row, written from place 0. The count is that of the listed modules.
pub fn expected_order(table: &Table, root: u32, expected: &mut [u32]) -> Result<usize, Refusal>
    ensures { ExpectedOrder (as_lent table.now) root expected.old result expected.new }
{
    let mut space = ReadSpace::EMPTY;
    let current = read_tested(table, &mut space)?;
    let modules = current.modules();
    if modules <= (root as usize) {
        return Err(Refusal::Argument);
    }
    if expected.len() < modules {
        return Err(Refusal::ShortSlice);
    }
    let mut marks = [0u32; MODULE_LIMIT];
    let count = list_expected(current.columns(), &mut marks[..modules], expected, root);
    Ok(count)
}
