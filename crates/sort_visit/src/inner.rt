// For crates above, on columns that fit.
ghost use Rattle.std.specs.Prelude.{◌<◌, [], ◌∷◌, length};
ghost use Rattle.walk.specs.Walk.{Visits, everywhere};
ghost use Rattle.tables.specs.Readings.{is_static, any_target, targets_of};
ghost use Rattle.tables.specs.Accepted.{Below};
ghost use Rattle.sort_steps.specs.Steps.{number};
ghost use Rattle.sort_visit.specs.Visit.{Indexed, held, Room};

use current_columns::inner::Columns;
use sort_steps::inner::{Counters, leave, met, unmet};

// Visits a module: marks it, visits what its records lead to, and then leaves it. The counters are lent to each visit. `starts` has each
// module's first record row. Marks and what is written stay plain slices beside the counters, as in the visits of the actual order.
fn visit(
    columns: &Columns,
    starts: &[u32],
    counters: &mut Counters,
    marks: &mut [u32],
    numbers: &mut [u32],
    sorted: &mut [u32],
    m: u32,
)
    requires { Indexed columns.now starts.now (length marks.old) × (m < length marks.old) × Room marks.old numbers.old sorted.old counters.old.placed counters.old.next }
    ensures { Visits (targets_of (is_static columns.now.dynamic) any_target columns.now.normal columns.now.record_module columns.now.record_kind columns.now.record_target) everywhere (number columns.now.normal) (held marks.old numbers.old sorted.old counters.old.placed counters.old.next) (m ∷ []) (held marks.new numbers.new sorted.new counters.new.placed counters.new.next) }
{
    if met(marks, m) {
        return;
    }
    let at = m as usize;
    let start = starts[at] as usize;
    let end = starts[at + 1] as usize;
    // by number: a row's target is looked up by it
    for row in start..end {
        if let Some(t) = unmet(columns, marks, row) {
            visit(columns, starts, counters, marks, numbers, sorted, t);
        }
    }
    let so_far = *counters;
    *counters = leave(columns, numbers, sorted, m, so_far);
}

// Visits the runtime and then the entries in row order, and hands back the counters that were lent to each visit.
#[tactic(auto, unfolding(current_columns::specs::AsProject::project))]
pub fn visit_roots(
    columns: &Columns,
    starts: &[u32],
    marks: &mut [u32],
    numbers: &mut [u32],
    sorted: &mut [u32],
) -> Counters
    requires { Indexed columns.now starts.now (length marks.old) × (columns.now.runtime < length marks.old) × Below (length marks.old) columns.now.entry × Room marks.old numbers.old sorted.old 0 0 }
    ensures { Visits (targets_of (is_static columns.now.dynamic) any_target columns.now.normal columns.now.record_module columns.now.record_kind columns.now.record_target) everywhere (number columns.now.normal) (held marks.old numbers.old sorted.old 0 0) (columns.now.runtime ∷ columns.now.entry) (held marks.new numbers.new sorted.new result.placed result.next) }
{
    let mut counters = Counters { placed: 0, next: 0 };
    let runtime = columns.runtime;
    visit(
        columns,
        starts,
        &mut counters,
        marks,
        numbers,
        sorted,
        runtime,
    );
    for &m in columns.entry {
        visit(columns, starts, &mut counters, marks, numbers, sorted, m);
    }
    counters
}
