// For crates above, on columns that fit.
ghost use Rattle.std.specs.Prelude.{◌≡◌, ◌<◌, length, slice_index};
ghost use Rattle.tables.specs.Readings.{modules, is_static, any_target, row_targets, targets_of};
ghost use Rattle.tables.specs.Accepted.{Below};
ghost use Rattle.sort_visit.specs.Visit.{Fit};
ghost use Rattle.circle_rows.specs.Rows.{Led, LedOnce};

use current_columns::inner::Columns;
use sort_steps::inner::led;
use table::MODULE_LIMIT;
use tables::ModuleIdx;

// The module that a row leads to, or the mark if there is none or an earlier row of the same module leads there too. `seen` has, for each module, one more
// than the last one whose row led to it, or 0. The mark, as the column that it is written to holds it.
#[tactic(auto, using(crate::proofs::Rows::set_same, crate::proofs::Rows::led_new), unfolding(current_columns::specs::AsProject::project))]
fn lead_once(columns: &Columns, seen: &mut [u32], row: usize) -> u32
    requires fit { Fit columns.now (length seen.old) }
    requires importers { Below (length seen.old) columns.now.record_module }
    requires row { row < length columns.now.record_module }
    ensures { Led (row_targets (is_static columns.now.dynamic) any_target columns.now.normal columns.now.record_kind columns.now.record_target row) (slice_index columns.now.record_module row) seen.old result seen.new }
{
    let Some(t) = led(columns, row) else {
        return ModuleIdx::MISSING;
    };
    let importers = columns.record_module;
    let by = importers[row] + 1;
    let at = t as usize;
    if seen[at] == by {
        return ModuleIdx::MISSING;
    }
    seen[at] = by;
    t
}

// What each row leads to, once for each module.
#[tactic(auto, unfolding(current_columns::specs::AsProject::project))]
pub fn lead_rows(columns: &Columns, leads: &mut [u32])
    requires fit { Fit columns.now (modules columns.now) }
    requires importers { Below (modules columns.now) columns.now.record_module }
    requires places { length leads.old ≡ length columns.now.record_module }
    ensures { LedOnce columns.now.record_module (targets_of (is_static columns.now.dynamic) any_target columns.now.normal columns.now.record_module columns.now.record_kind columns.now.record_target) (modules columns.now) leads.new }
{
    let mut seen = [0u32; MODULE_LIMIT];
    let seen = &mut seen[..columns.normal.len()];
    for (row, lead) in leads.iter_mut().enumerate() {
        *lead = lead_once(columns, seen, row);
    }
}
