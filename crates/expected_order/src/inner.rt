// For crates above: the list over columns that fit, and the one of a tested table.
ghost use Rattle.std.specs.Prelude.{◌≡◌, ◌<◌, ◌≤◌, length};
ghost use Rattle.tables.specs.Readings.{modules};
ghost use Rattle.tables.specs.Refusal.{module_limit};
ghost use Rattle.tables.specs.Accepted.{Below};
ghost use Rattle.expected_visit.specs.Visit.{Fit};
ghost use Rattle.expected_visit.specs.OfProject.{expected_of};
ghost use Rattle.expected_order.specs.Visit.{Listed, Rooted};

use current_columns::inner::{Columns, Current};
use expected_visit::inner::visit;
use table::MODULE_LIMIT;
use tables::inner::first_rows;

// The expected order of a row. `marks` is working space, a place a module.
#[tactic(auto, using(crate::proofs::Entries::blank_room), unfolding(current_columns::specs::AsProject::project))]
pub fn list_expected(columns: &Columns, marks: &mut [u32], order: &mut [u32], root: u32) -> usize
    requires fit { Fit columns.now (modules columns.now) }
    requires rooted { Rooted columns.now root (length marks.old) (length order.old) }
    ensures { Listed (expected_of columns.now root) marks.old order.old marks.new order.new result }
{
    marks.fill(0);
    if columns.normal[root as usize] != 1 {
        return 0;
    }
    let mut starts = [0u32; MODULE_LIMIT + 1];
    let starts = &mut starts[..marks.len() + 1];
    first_rows(columns.record_module, starts);
    let count = visit(columns, starts, marks, order, root, 0);
    marks.fill(0);
    count
}

// The expected order of a row, at the front of an array.
pub fn find_expected<'a>(
    current: &Current,
    order: &'a mut [u32; MODULE_LIMIT],
    root: u32,
) -> &'a [u32]
    requires { root < modules current.now }
    ensures order { result.now ≡ expected_of current.now root }
    ensures members { Below (modules current.now) result.now }
    ensures few { modules current.now ≤ module_limit }
{
    let n = current.modules();
    let mut marks = [0u32; MODULE_LIMIT];
    let count = list_expected(current.columns(), &mut marks[..n], order, root);
    &order[..count]
}
