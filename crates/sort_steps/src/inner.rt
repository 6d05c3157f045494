// For crates above, on columns that fit.
ghost use Rattle.std.specs.Prelude.{◌≡◌, ℕ, ◌<◌, length, IfSome};
ghost use Rattle.tables.specs.Project.{missing};
ghost use Rattle.tables.specs.Readings.{is_static, any_target, row_targets};
ghost use Rattle.tables.specs.Accepted.{BelowOrMissing};
ghost use Rattle.sort_steps.specs.Steps.{Met, one_or_none, unmet_of, made, number};

use current_columns::inner::Columns;
use tables::Target;
use tables::inner::{is_static, resolve};

// How many modules are listed, and the next number, which counts externals too. The visits of the actual order have counters of
// their own, by the Rust's name: there the two are equal, and every contract says so.
#[derive(Clone, Copy)]
pub struct Counters {
    pub placed: usize,
    pub next: u32,
}

// Whether a module was met before. One that was not is met now.
pub fn met(marks: &mut [u32], m: u32) -> bool
    requires { m < length marks.old }
    ensures { Met marks.old m result marks.new }
{
    let at = m as usize;
    if marks[at] != 0 {
        return true;
    }
    marks[at] = 1;
    false
}

// The module that a record leads to, if any.
#[tactic(auto, unfolding(current_columns::specs::AsProject::project, tables::specs::Readings::resolved))]
pub fn led(columns: &Columns, row: usize) -> Option<u32>
    requires { (row < length columns.now.record_kind) × (row < length columns.now.record_target) }
    ensures leads { row_targets (is_static columns.now.dynamic) any_target columns.now.normal columns.now.record_kind columns.now.record_target row ≡ one_or_none result }
    ensures within { (n : ℕ) → BelowOrMissing n columns.now.record_target → IfSome result (λ t. t < n) }
{
    let kinds = columns.record_kind;
    if !is_static(columns.dynamic, kinds[row]) {
        return None;
    }
    let found = resolve(columns.normal, columns.record_target, row);
    let (Target::External(t) | Target::Normal(t)) = found else {
        return None;
    };
    Some(t)
}

// The unmet module that a record leads to, if any.
pub fn unmet(columns: &Columns, marks: &[u32], row: usize) -> Option<u32>
    requires { (row < length columns.now.record_kind) × (row < length columns.now.record_target) × BelowOrMissing (length marks.now) columns.now.record_target }
    ensures leads { unmet_of marks.now (row_targets (is_static columns.now.dynamic) any_target columns.now.normal columns.now.record_kind columns.now.record_target row) ≡ one_or_none result }
    ensures within { IfSome result (λ t. t < length marks.now) }
{
    let t = led(columns, row)?;
    if marks[t as usize] != 0 {
        return None;
    }
    Some(t)
}

// Leaves a module: it takes the next number, and is listed if it is normal.
#[tactic(auto, unfolding(current_columns::specs::AsProject::project))]
pub fn leave(
    columns: &Columns,
    numbers: &mut [u32],
    sorted: &mut [u32],
    m: u32,
    counters: Counters,
) -> Counters
    requires { (m < length columns.now.normal) × (m < length numbers.old) × (counters.placed < length sorted.old) × (counters.next < missing) }
    ensures { made numbers.new sorted.new result.placed result.next ≡ number columns.now.normal (made numbers.old sorted.old counters.placed counters.next) m }
{
    let at = m as usize;
    let placed = counters.placed;
    let next = counters.next;
    numbers[at] = next;
    if columns.normal[at] != 1 {
        return Counters {
            placed,
            next: next + 1,
        };
    }
    sorted[placed] = m;
    Counters {
        placed: placed + 1,
        next: next + 1,
    }
}
