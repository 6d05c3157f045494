// Row look-ups, for crates above, on tested tables.
ghost use Rattle.std.specs.Prelude.{◌≡◌, ◌<◌, ◌≤◌, length};
ghost use Rattle.tables.specs.Lookups.{Rising, FirstRow, FirstRows, RowEnds};
ghost use Rattle.tables.specs.Readings.{is_static, resolved};

use crate::{ModuleIdx, Target};

// The first row of a rising column that is at least x.
pub fn first_row(column: &[u32], x: usize) -> usize
    requires { Rising column.now }
    ensures { FirstRow column.now x result }
{
    column.partition_point(|row| (*row as usize) < x)
}

// Writes at the place after each value the row after its last, and 0 at the other places.
#[tactic(auto, using(crate::proofs::Starts::end_steps))]
fn row_ends(column: &[u32], starts: &mut [u32])
    requires rising { Rising column.now }
    requires few { length column.now ≤ 16384 }
    ensures { RowEnds column.now starts.new (length column.now) }
{
    starts.fill(0);
    for (row, value) in column.iter().enumerate() {
        let next = *value as usize + 1;
        if next < starts.len() {
            starts[next] = row as u32 + 1;
        }
    }
}

// The first row of each value that has a place in `starts`.
#[tactic(auto, using(crate::proofs::Starts::start_steps))]
pub fn first_rows(column: &[u32], starts: &mut [u32])
    requires rising { Rising column.now }
    requires few { length column.now ≤ 16384 }
    ensures { FirstRows column.now starts.new }
{
    row_ends(column, starts);
    // by number: each place is written from the one before it
    for x in 1..starts.len() {
        starts[x] = starts[x - 1].max(starts[x]);
    }
}

// The target of a record row.
#[tactic(auto, unfolding(crate::specs::Readings::resolved))]
pub fn resolve(normal: &[u32], target: &[u32], row: usize) -> Target
    requires { row < length target.now }
    ensures { result ≡ resolved normal.now target.now row }
{
    let t = target[row];
    if t == ModuleIdx::MISSING {
        return Target::Missing;
    }
    match normal.get(t as usize) {
        Some(&1) => Target::Normal(t),
        _ => Target::External(t),
    }
}

// Whether a record of this kind is static.
pub fn is_static(dynamic: u32, kind: u32) -> bool
    ensures { result ≡ is_static dynamic kind }
{
    kind < 2 || (kind == 2 && dynamic == 1)
}
