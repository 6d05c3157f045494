// A project lent as one value: its settings, its columns one after the other with where each starts, its names and its import records.
#![tactic(auto)]

ghost use Rattle.std.specs.Prelude.{◌≡◌, length, get_or};
ghost use Rattle.table.specs.Table.{column_at, lent};
ghost use Rattle.table.specs.Lending.{as_lent};

use tables::ModuleIdx;

// A project as it is lent: its settings, where each column starts, with where the last ends, all columns one after the other, the modules' names,
// and the import records that it is read with.
#[derive(Clone, Copy)]
pub struct Table<'a> {
    pub runtime: u32,
    pub dynamic: u32,
    pub bounds: &'a [u32],
    pub columns: &'a [u32],
    pub names: &'a [u8],
    pub importers: &'a [u32],
    pub kinds: &'a [u32],
    pub targets: &'a [u32],
}

// How many modules there can be.
pub const MODULE_LIMIT: usize = ModuleIdx::LARGEST as usize + 1;

// How many chunks there can be.
pub const CHUNK_LIMIT: usize = 1024;

// How many rows any other list can have.
pub const ROW_LIMIT: usize = 16384;

// The columns, by number.
pub const NORMAL: usize = 0;

pub const INCLUDED: usize = 1;

pub const SENSITIVE: usize = 2;

pub const READS: usize = 3;

pub const EXPORTS: usize = 4;

pub const WRAP: usize = 5;

pub const CHUNK: usize = 6;

pub const NEWER: usize = 7;

pub const RECORD_MODULE: usize = 8;

pub const RECORD_KIND: usize = 9;

pub const RECORD_TARGET: usize = 10;

pub const DEPENDENCY_MODULE: usize = 11;

pub const DEPENDENCY: usize = 12;

pub const STATEMENT_MODULE: usize = 13;

pub const STATEMENT_INCLUDED: usize = 14;

pub const USE_STATEMENT: usize = 15;

pub const USE_RECORD: usize = 16;

pub const OWNER: usize = 17;

pub const CANONICAL: usize = 18;

pub const CHAIN_SYMBOL: usize = 19;

pub const CHAIN_LINK: usize = 20;

pub const REFERENCE_STATEMENT: usize = 21;

pub const REFERENCE_FORM: usize = 22;

pub const REFERENCE_SYMBOL: usize = 23;

pub const DEPENDED_REFERENCE: usize = 24;

pub const DEPENDED: usize = 25;

pub const ORDER: usize = 26;

pub const MEMBER_CHUNK: usize = 27;

pub const MEMBER: usize = 28;

pub const IMPORT_CHUNK: usize = 29;

pub const IMPORTS: usize = 30;

pub const ENTRY: usize = 31;

pub const ENTRY_CHUNK: usize = 32;

pub const SEED: usize = 33;

// How many columns there are.
pub const COLUMNS: usize = 34;

// Bound k, 0 past the last.
fn bound(bounds: &[u32], k: usize) -> usize
    ensures { result ≡ get_or bounds.now k 0 }
{
    if k < bounds.len() {
        return bounds[k] as usize;
    }
    0
}

// Column k.
#[tactic(auto, unfolding(crate::specs::Table::column_at, crate::specs::Table::part))]
pub fn column<'a>(bounds: &[u32], columns: &'a [u32], k: usize) -> &'a [u32]
    ensures { result.now ≡ column_at bounds.now columns.now k }
{
    if bounds.len() <= k {
        return &columns[..0];
    }
    let start = bound(bounds, k);
    let end = bound(bounds, k + 1);
    if end < start {
        return &columns[..0];
    }
    if columns.len() < end {
        return &columns[..0];
    }
    &columns[start..end]
}

// How many rows column k has.
pub fn rows(bounds: &[u32], columns: &[u32], k: usize) -> usize
    ensures { result ≡ length (column_at bounds.now columns.now k) }
{
    column(bounds, columns, k).len()
}

impl<'a> Table<'a> {
    // A table with the import records that stand in its columns.
    #[tactic(auto, unfolding(crate::specs::Table::table, crate::specs::Table::read))]
    pub fn new(
        runtime: u32,
        dynamic: u32,
        bounds: &'a [u32],
        columns: &'a [u32],
        names: &'a [u8],
    ) -> Self
        ensures lent { as_lent result ≡ lent runtime dynamic bounds.entry.now columns.entry.now names.entry.now }
        ensures names { result.names.now ≡ names.entry.now }
    {
        Table {
            runtime,
            dynamic,
            bounds,
            columns,
            names,
            importers: column(bounds, columns, RECORD_MODULE),
            kinds: column(bounds, columns, RECORD_KIND),
            targets: column(bounds, columns, RECORD_TARGET),
        }
    }

    // Column k.
    pub fn column(&self, k: usize) -> &'a [u32]
        ensures { result.now ≡ column_at self.now.bounds.now self.now.columns.now k }
    {
        column(self.bounds, self.columns, k)
    }

    // How many rows column k has.
    pub fn rows(&self, k: usize) -> usize
        ensures { result ≡ length (column_at self.now.bounds.now self.now.columns.now k) }
    {
        rows(self.bounds, self.columns, k)
    }
}
