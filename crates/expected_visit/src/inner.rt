// For crates above, on columns that fit.
ghost use Rattle.std.specs.Prelude.{◌+◌, ◌<◌, ◌≤◌, [], ◌∷◌, length};
ghost use Rattle.lists.specs.Words.{zeros};
ghost use Rattle.walk.specs.Walk.{Visits, place, everywhere};
ghost use Rattle.tables.specs.Lookups.{FirstRows};
ghost use Rattle.tables.specs.Readings.{flagged};
ghost use Rattle.expected_visit.specs.Visit.{Fit, normal_imports, held};

use current_columns::inner::Columns;
use tables::Target;
use tables::inner::resolve;

// Visits a module: marks it, visits what its records lead to, and then lists it if it is included. How many are listed then. `starts` has each
// module's first record row.
// The order goes on with its count: tried as a value over the slice, and what `list_expected` then leaves in the slice wasn't proved.
#[tactic(auto, using(crate::proofs::Walking::walking_steps), unfolding(current_columns::specs::AsProject::project))]
pub fn visit(
    columns: &Columns,
    starts: &[u32],
    marks: &mut [u32],
    order: &mut [u32],
    m: u32,
    placed: usize,
) -> usize
    requires fit { Fit columns.now (length marks.old) }
    requires starts { FirstRows columns.now.record_module starts.now }
    requires places { length marks.old < length starts.now }
    requires module { m < length marks.old }
    requires room { placed + zeros marks.old ≤ length order.old }
    ensures { Visits (normal_imports columns.now) everywhere (place (flagged columns.now.included)) (held marks.old order.old placed) (m ∷ []) (held marks.new order.new result) }
{
    let at = m as usize;
    if marks[at] != 0 {
        return placed;
    }
    marks[at] = 1;
    let start = starts[at] as usize;
    let end = starts[at + 1] as usize;
    let mut count = placed;
    // by number: a row's target is looked up by it
    for row in start..end {
        if columns.record_kind[row] != 0 {
            continue;
        }
        let found = resolve(columns.normal, columns.record_target, row);
        let Target::Normal(t) = found else {
            continue;
        };
        if marks[t as usize] != 0 {
            continue;
        }
        count = visit(columns, starts, marks, order, t, count);
    }
    if columns.included[at] == 1 {
        order[count] = m;
        count += 1;
    }
    count
}
