// Import records, lent as a slice of records, under thin functions.
#![tactic(auto)]

ghost use Rattle.std.specs.Prelude.{◌≡◌, ◌<◌, List, length, slice_index_or};
ghost use Rattle.record_columns.specs.declared.Record.{Record};
ghost use Rattle.record_columns.specs.Rows.{no_row, columns_of};
ghost use Rattle.record_columns.specs.Beside.{LentBeside};

use inner::Columns;
use table::{ROW_LIMIT, Table};
use tables::Refusal;

pub mod inner;

// An import record: 01's row `module kind target`.
#[derive(Clone, Copy, PartialEq, Eq, Debug)]
pub struct Record {
    pub importer: u32,
    pub kind: u32,
    pub target: u32,
}

// How many records there are.
fn count(records: &[Record]) -> usize
    ensures { result ≡ length records.now }
{
    records.len()
}

// The importing module at a row.
fn importer_at(records: &[Record], row: usize) -> u32
    requires { row < length records.now }
    ensures { result ≡ (slice_index_or records.now row no_row).importer }
{
    records[row].importer
}

// The kind at a row.
fn kind_at(records: &[Record], row: usize) -> u32
    requires { row < length records.now }
    ensures { result ≡ (slice_index_or records.now row no_row).kind }
{
    records[row].kind
}

// The target at a row.
fn target_at(records: &[Record], row: usize) -> u32
    requires { row < length records.now }
    ensures { result ≡ (slice_index_or records.now row no_row).target }
{
    records[row].target
}

// A table that is read with a list of records in the place of its own, which aren't read: every operation on it is the operation with these records.
// A list over the limit is refused, as each of them would.
pub fn with_records<'a>(table: &Table<'a>, made: &'a Columns) -> Result<Table<'a>, Refusal>
    ensures { (records : List Record) → made.now ≡ columns_of records → LentBeside table.now records result }
{
    let rows = made.rows;
    if ROW_LIMIT < rows {
        return Err(Refusal::ListSize);
    }
    Ok(Table {
        runtime: table.runtime,
        dynamic: table.dynamic,
        bounds: table.bounds,
        columns: table.columns,
        names: table.names,
        importers: &made.importers[..rows],
        kinds: &made.kinds[..rows],
        targets: &made.targets[..rows],
    })
}
