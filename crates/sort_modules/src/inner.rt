// For crates above, on tested tables.
ghost use Rattle.std.specs.Prelude.{length};
ghost use Rattle.sort_modules.specs.OfProject.{numbers_of, sorted_of};
ghost use Rattle.sort_modules.specs.Sorting.{Sortable, Sorted};

use current_columns::inner::Current;
use lists::inner::fill;
use sort_visit::inner::visit_roots;
use table::MODULE_LIMIT;
use tables::ModuleIdx;
use tables::inner::first_rows;

// The module numbers and the sorted list of an accepted project. `marks` is working space, a place a module.
#[tactic(auto, unfolding(current_columns::specs::AsProject::project))]
pub fn sort_table(
    current: &Current,
    marks: &mut [u32],
    numbers: &mut [u32],
    sorted: &mut [u32],
) -> usize
    requires places { Sortable current.now (length marks.old) (length numbers.old) (length sorted.old) }
    ensures { Sorted (numbers_of current.now) (sorted_of current.now) marks.old sorted.old marks.new numbers.new sorted.new result }
{
    let columns = current.columns();
    fill(marks, 0);
    fill(numbers, ModuleIdx::MISSING);
    let mut starts = [0u32; MODULE_LIMIT + 1];
    let starts = &mut starts[..current.modules() + 1];
    first_rows(columns.record_module, starts);
    let last = visit_roots(columns, starts, marks, numbers, sorted);
    fill(marks, 0);
    last.placed
}
