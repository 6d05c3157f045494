// For crates above. Tests 3 and 4: rows rise, and rows agree with each other.
ghost use Rattle.std.specs.Prelude.{◌≡◌};
ghost use Rattle.value_tests.specs.Passed.{Passed};
ghost use Rattle.table.specs.Lending.{written};
ghost use Rattle.tables.specs.Refusal.{rows_rise, rows_agree};

use column_tests::inner::{all_at, entries_once, imports_once, is_rising, plain_symbols, uses_own};
use table::{
    DEPENDED_REFERENCE, ENTRY, IMPORT_CHUNK, IMPORTS, MEMBER_CHUNK, NORMAL, REFERENCE_FORM,
    REFERENCE_SYMBOL, STATEMENT_MODULE, Table, USE_RECORD, USE_STATEMENT,
};

// Test 3.
#[tactic(auto, unfolding(table::specs::Table::table, table::specs::Table::read, tables::specs::Refusal::rows_rise))]
pub fn rows_rise(table: &Table) -> bool
    ensures { result ≡ rows_rise (written table.now) }
{
    is_rising(table.importers)
        & is_rising(table.column(STATEMENT_MODULE))
        & is_rising(table.column(MEMBER_CHUNK))
        & is_rising(table.column(IMPORT_CHUNK))
}

// Test 4, of a table that passed the others.
#[tactic(auto, unfolding(table::specs::Table::table, table::specs::Table::read, tables::specs::Refusal::rows_agree, tables::specs::Refusal::all_normal, tables::specs::Refusal::depended_resolved))]
pub fn rows_agree(table: &Table) -> bool
    requires { Passed (written table.now) }
    ensures { result ≡ rows_agree (written table.now) }
{
    let normal = table.column(NORMAL);
    let statement_module = table.column(STATEMENT_MODULE);
    let use_statement = table.column(USE_STATEMENT);
    let use_record = table.column(USE_RECORD);
    let reference_form = table.column(REFERENCE_FORM);
    let reference_symbol = table.column(REFERENCE_SYMBOL);
    let depended_reference = table.column(DEPENDED_REFERENCE);
    let entry = table.column(ENTRY);
    let import_chunk = table.column(IMPORT_CHUNK);
    let imports = table.column(IMPORTS);
    all_at(normal, table.importers, 1)
        & all_at(normal, statement_module, 1)
        & uses_own(statement_module, table.importers, use_statement, use_record)
        & all_at(reference_form, depended_reference, 2)
        & plain_symbols(reference_form, reference_symbol)
        & entries_once(entry)
        & imports_once(import_chunk, imports)
}
