// For crates above. Test 2: every value is inside its column.
ghost use Rattle.std.specs.Prelude.{◌≡◌, ◌+◌, ◌<◌, ◌&&◌};
ghost use Rattle.table.specs.Table.{column_at};
ghost use Rattle.table.specs.Lending.{written};
ghost use Rattle.tables.specs.Refusal.{below, below_or_missing, settings_in, modules_in, pair_in, entries_in, code_in, symbols_in, chunks_in};

use column_tests::inner::{all_below, all_below_or_missing};
use table::{
    CHAIN_SYMBOL, CHUNK, DEPENDED_REFERENCE, DEPENDENCY_MODULE, ENTRY, ENTRY_CHUNK, EXPORTS,
    IMPORT_CHUNK, INCLUDED, MEMBER_CHUNK, NORMAL, ORDER, OWNER, READS, REFERENCE_STATEMENT, SEED,
    SENSITIVE, STATEMENT_MODULE, Table, USE_STATEMENT, WRAP,
};
use tables::ModuleIdx;

// The two settings.
fn settings_in(modules: usize, runtime: u32, dynamic: u32) -> bool
    ensures { result ≡ settings_in modules runtime dynamic }
{
    ((runtime as usize) < modules) & (dynamic < 2)
}

// The modules.
fn modules_in<'a>(
    normal: &'a [u32],
    included: &'a [u32],
    sensitive: &'a [u32],
    reads: &'a [u32],
    exports: &'a [u32],
    wrap: &'a [u32],
    chunk: &'a [u32],
    chunks: usize,
) -> bool
    ensures { result ≡ modules_in chunks normal.now included.now sensitive.now reads.now exports.now wrap.now chunk.now }
{
    all_below(normal, 2)
        & all_below(included, 2)
        & all_below(sensitive, 2)
        & all_below(reads, 2)
        & all_below(exports, 3)
        & all_below(wrap, 3)
        & all_below_or_missing(chunk, chunks)
}

// A list of three columns, the last with the missing mark. This and the next ones are test 2 of lists of two columns or three, with the mark or without:
// one function of all would take a bound and a flag for each column.
fn three_in<'a>(
    first: &'a [u32],
    second: &'a [u32],
    third: &'a [u32],
    l: usize,
    m: usize,
    n: usize,
) -> bool
    ensures { result ≡ (below l first.now && (below m second.now && below_or_missing n third.now)) }
{
    all_below(first, l) & all_below(second, m) & all_below_or_missing(third, n)
}

// A list of two columns.
fn pair_in<'a>(first: &'a [u32], second: &'a [u32], m: usize, n: usize) -> bool
    ensures { result ≡ pair_in m n first.now second.now }
{
    all_below(first, m) & all_below(second, n)
}

// The entries.
fn entries_in<'a>(entry: &'a [u32], entry_chunk: &'a [u32], modules: usize, chunks: usize) -> bool
    ensures { result ≡ entries_in modules chunks entry.now entry_chunk.now }
{
    all_below(entry, modules) & all_below_or_missing(entry_chunk, chunks)
}

// A list of two columns or of three, from column k on.
fn pair_at(table: &Table, k: usize, m: usize, n: usize) -> bool
    requires { k < 64 }
    ensures { result ≡ pair_in m n (column_at table.now.bounds.now table.now.columns.now k) (column_at table.now.bounds.now table.now.columns.now (k + 1)) }
{
    pair_in(table.column(k), table.column(k + 1), m, n)
}

fn three_at(table: &Table, k: usize, l: usize, m: usize, n: usize) -> bool
    requires { k < 64 }
    ensures { result ≡ (below l (column_at table.now.bounds.now table.now.columns.now k) && (below m (column_at table.now.bounds.now table.now.columns.now (k + 1)) && below_or_missing n (column_at table.now.bounds.now table.now.columns.now (k + 2)))) }
{
    three_in(
        table.column(k),
        table.column(k + 1),
        table.column(k + 2),
        l,
        m,
        n,
    )
}

// Settings, modules, records, dependencies and statements.
#[tactic(auto, unfolding(table::specs::Table::table, table::specs::Table::read))]
pub fn code_in(table: &Table) -> bool
    ensures { result ≡ code_in (written table.now) }
{
    let modules = table.rows(NORMAL);
    let chunks = table.rows(ORDER);
    settings_in(modules, table.runtime, table.dynamic)
        & modules_in(
            table.column(NORMAL),
            table.column(INCLUDED),
            table.column(SENSITIVE),
            table.column(READS),
            table.column(EXPORTS),
            table.column(WRAP),
            table.column(CHUNK),
            chunks,
        )
        & three_in(
            table.importers,
            table.kinds,
            table.targets,
            modules,
            4,
            modules,
        )
        & pair_at(table, DEPENDENCY_MODULE, modules, modules)
        & pair_at(table, STATEMENT_MODULE, modules, 2)
}

// Uses, symbols, export chains, references and depended rows.
#[tactic(auto, unfolding(table::specs::Table::table, table::specs::Table::read))]
pub fn symbols_in(table: &Table) -> bool
    ensures { result ≡ symbols_in (written table.now) }
{
    let modules = table.rows(NORMAL);
    let records = table.importers.len();
    let statements = table.rows(STATEMENT_MODULE);
    let symbols = table.rows(OWNER);
    let references = table.rows(REFERENCE_STATEMENT);
    pair_at(table, USE_STATEMENT, statements, records)
        & pair_at(table, OWNER, modules, symbols)
        & pair_at(table, CHAIN_SYMBOL, symbols, symbols)
        & three_at(table, REFERENCE_STATEMENT, statements, 3, symbols)
        & pair_at(table, DEPENDED_REFERENCE, references, symbols)
}

// Chunks, members, imports, entries and seeds.
#[tactic(auto, unfolding(table::specs::Table::table, table::specs::Table::read))]
pub fn chunks_in(table: &Table) -> bool
    ensures { result ≡ chunks_in (written table.now) }
{
    let modules = table.rows(NORMAL);
    let chunks = table.rows(ORDER);
    all_below(table.column(ORDER), ModuleIdx::MISSING as usize)
        & pair_at(table, MEMBER_CHUNK, chunks, modules)
        & pair_at(table, IMPORT_CHUNK, chunks, chunks)
        & entries_in(
            table.column(ENTRY),
            table.column(ENTRY_CHUNK),
            modules,
            chunks,
        )
        & all_below(table.column(SEED), modules)
}
