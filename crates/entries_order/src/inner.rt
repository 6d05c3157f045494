// For crates above, on columns that fit.
ghost use Rattle.std.specs.Prelude.{◌≡◌, ◌<◌, ◌≤◌, length};
ghost use Rattle.lists.specs.Words.{keep, zeros};
ghost use Rattle.walk.specs.Walk.{Visits, place, everywhere};
ghost use Rattle.tables.specs.Accepted.{Below};
ghost use Rattle.tables.specs.Lookups.{FirstRows};
ghost use Rattle.tables.specs.Readings.{modules, flagged};
ghost use Rattle.expected_visit.specs.Visit.{Fit, normal_imports, held};
ghost use Rattle.entries_order.specs.Entries.{is_walked};
ghost use Rattle.entries_order.specs.OfEntries.{expected_of_entries};
ghost use Rattle.entries_order.specs.inner.Walked.{Written, Entered};

use current_columns::inner::Columns;
use expected_visit::inner::visit;
use table::MODULE_LIMIT;
use tables::inner::first_rows;

// Visits the entries in turn, the marks kept between them; one that isn't included, or is external, is passed over. How many are listed then.
#[tactic(auto, using(crate::proofs::Turns::turn_steps), unfolding(current_columns::specs::AsProject::project))]
fn visit_entries(
    columns: &Columns,
    starts: &[u32],
    entries: &[u32],
    marks: &mut [u32],
    order: &mut [u32],
) -> usize
    requires fit { Fit columns.now (length marks.old) }
    requires starts { FirstRows columns.now.record_module starts.now }
    requires places { length marks.old < length starts.now }
    requires entries { Below (length marks.old) entries.now }
    requires room { zeros marks.old ≤ length order.old }
    ensures { Visits (normal_imports columns.now) everywhere (place (flagged columns.now.included)) (held marks.old order.old 0) (keep (is_walked columns.now.normal columns.now.included) entries.now) (held marks.new order.new result) }
{
    let mut count = 0;
    for &e in entries {
        let at = e as usize;
        if columns.included[at] != 1 {
            continue;
        }
        if columns.normal[at] != 1 {
            continue;
        }
        count = visit(columns, starts, marks, order, e, count);
    }
    count
}

// The expected order of rows, walked together.
#[tactic(auto, unfolding(current_columns::specs::AsProject::project))]
pub fn list_entries(columns: &Columns, entries: &[u32], order: &mut [u32]) -> usize
    requires fit { Fit columns.now (modules columns.now) }
    requires entered { Entered columns.now entries.now (length order.old) }
    ensures { Written (expected_of_entries columns.now entries.now) order.old order.new result }
{
    let n = columns.normal.len();
    let mut starts = [0u32; MODULE_LIMIT + 1];
    let starts = &mut starts[..n + 1];
    first_rows(columns.record_module, starts);
    let mut marks = [0u32; MODULE_LIMIT];
    let marks = &mut marks[..n];
    visit_entries(columns, starts, entries, marks, order)
}
