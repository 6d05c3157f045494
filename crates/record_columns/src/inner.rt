// The columns of a list of records, for crates above.
ghost use Rattle.std.specs.Prelude.{◌≡◌};
ghost use Rattle.record_columns.specs.Rows.{copied, columns_of};

use crate::{Record, count, importer_at, kind_at, target_at};
use table::ROW_LIMIT;

// The columns of a list of records, from place 0, and how many rows the list has: more than the arrays hold where it is over the limit.
// Arrays of one size, as there is no heap.
#[derive(Clone, Copy)]
pub struct Columns {
    pub rows: usize,
    pub importers: [u32; ROW_LIMIT],
    pub kinds: [u32; ROW_LIMIT],
    pub targets: [u32; ROW_LIMIT],
}

// How many rows are copied of a list of so many: none of one over the limit.
fn rows_copied(rows: usize) -> usize
    ensures { result ≡ copied rows }
{
    if ROW_LIMIT < rows {
        return 0;
    }
    rows
}

// The columns of a list of records. Nothing is copied of one over the limit.
pub fn columns_of(records: &[Record]) -> Columns
    ensures { result ≡ columns_of records.now }
{
    let mut importers = [0u32; ROW_LIMIT];
    let mut kinds = [0u32; ROW_LIMIT];
    let mut targets = [0u32; ROW_LIMIT];
    let rows = count(records);
    let end = rows_copied(rows);
    // by number: the scope's thin functions read a record's fields by its row
    for row in 0..end {
        importers[row] = importer_at(records, row);
        kinds[row] = kind_at(records, row);
        targets[row] = target_at(records, row);
    }
    Columns {
        rows: rows,
        importers: importers,
        kinds: kinds,
        targets: targets,
    }
}
