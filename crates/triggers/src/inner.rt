// For crates above, on columns that fit.
ghost use Rattle.std.specs.Prelude.{◌≡◌, ◌<◌, map, length};
ghost use Rattle.lists.specs.Words.{up_to};
ghost use Rattle.triggers.specs.inner.Columns.{way_of, row_trigger};

use current_columns::inner::Columns;
use tables::inner::resolve;
use tables::{ModuleIdx, Target};

// In which way a module executes with these wraps: 0 if it isn't normal and included; else 1 if its wrap is 0, and 2 if it isn't. A number, since a column holds it.
#[tactic(auto, unfolding(current_columns::specs::AsProject::project))]
fn way_of(columns: &Columns, wraps: &[u32], m: usize) -> u32
    requires { (m < length columns.now.normal) × (m < length columns.now.included) × (m < length wraps.now) }
    ensures { result ≡ way_of columns.now.normal columns.now.included wraps.now m }
{
    if columns.normal[m] != 1 {
        return 0;
    }
    if columns.included[m] != 1 {
        return 0;
    }
    if wraps[m] == 0 {
        return 1;
    }
    2
}

// In which way each module executes with these wraps, a place a module.
#[tactic(auto, using(lists::proofs::Laws::map_up_to_written))]
pub fn write_ways(columns: &Columns, wraps: &[u32], ways: &mut [u32])
    requires { (length columns.now.normal ≡ length ways.old) × (length columns.now.included ≡ length ways.old) × (length wraps.now ≡ length ways.old) }
    ensures { ways.new ≡ map (way_of columns.now.normal columns.now.included wraps.now) (up_to (length ways.old)) }
{
    for (m, way) in ways.iter_mut().enumerate() {
        *way = way_of(columns, wraps, m);
    }
}

// Which module a record row triggers: its target, if its kind is 0 or 1 and the target executes and its wrap is not 0. Else the mark,
// as the column that it is written to holds it.
#[tactic(auto, unfolding(tables::specs::Readings::resolved, current_columns::specs::AsProject::project))]
fn trigger_of(columns: &Columns, wraps: &[u32], row: usize) -> u32
    requires kind { row < length columns.now.record_kind }
    requires target { row < length columns.now.record_target }
    requires modules { (length columns.now.included ≡ length columns.now.normal) × (length wraps.now ≡ length columns.now.normal) }
    ensures { result ≡ row_trigger columns.now.normal columns.now.included wraps.now columns.now.record_kind columns.now.record_target row }
{
    let kinds = columns.record_kind;
    if 1 < kinds[row] {
        return ModuleIdx::MISSING;
    }
    let found = resolve(columns.normal, columns.record_target, row);
    let Target::Normal(t) = found else {
        return ModuleIdx::MISSING;
    };
    if way_of(columns, wraps, t as usize) != 2 {
        return ModuleIdx::MISSING;
    }
    t
}

// Which module each record row triggers with these wraps, or the mark, a place a row.
#[tactic(auto, using(lists::proofs::Laws::map_up_to_written))]
pub fn write_triggers(columns: &Columns, wraps: &[u32], triggers: &mut [u32])
    requires kinds { length columns.now.record_kind ≡ length triggers.old }
    requires targets { length columns.now.record_target ≡ length triggers.old }
    requires modules { (length columns.now.included ≡ length columns.now.normal) × (length wraps.now ≡ length columns.now.normal) }
    ensures { triggers.new ≡ map (row_trigger columns.now.normal columns.now.included wraps.now columns.now.record_kind columns.now.record_target) (up_to (length triggers.old)) }
{
    for (row, trigger) in triggers.iter_mut().enumerate() {
        *trigger = trigger_of(columns, wraps, row);
    }
}
