// For crates above. Test 1: every list is within its limit, its columns are of one length, and a module is there.
ghost use Rattle.std.specs.Prelude.{◌≡◌, ◌&&◌, nat_eq, nat_le};
ghost use Rattle.lists.specs.Words.{every};
ghost use Rattle.table.specs.Lending.{written};
ghost use Rattle.tables.specs.Refusal.{code_sized, symbols_sized, chunks_sized};

use table::{
    CANONICAL, CHAIN_LINK, CHAIN_SYMBOL, CHUNK, CHUNK_LIMIT, DEPENDED, DEPENDED_REFERENCE,
    DEPENDENCY, DEPENDENCY_MODULE, ENTRY, ENTRY_CHUNK, EXPORTS, IMPORT_CHUNK, IMPORTS, INCLUDED,
    MEMBER, MEMBER_CHUNK, MODULE_LIMIT, NEWER, NORMAL, ORDER, OWNER, READS, REFERENCE_FORM,
    REFERENCE_STATEMENT, REFERENCE_SYMBOL, ROW_LIMIT, SEED, SENSITIVE, STATEMENT_INCLUDED,
    STATEMENT_MODULE, Table, USE_RECORD, USE_STATEMENT, WRAP,
};

// A list is within its limit, and its other columns are as long as its first: by their lengths.
fn sized(limit: usize, size: usize, others: &[usize]) -> bool
    ensures { result ≡ (nat_le size limit && every (λ other. nat_eq other size) others.now) }
{
    (size <= limit) & others.iter().all(|&other| other == size)
}

// Modules, records, dependencies and statements.
#[tactic(auto, unfolding(table::specs::Table::table, table::specs::Table::read, tables::specs::Refusal::sized))]
pub fn code_sized(table: &Table) -> bool
    ensures { result ≡ code_sized (written table.now) }
{
    let normal = table.rows(NORMAL);
    let others = [
        table.rows(INCLUDED),
        table.rows(SENSITIVE),
        table.rows(READS),
        table.rows(EXPORTS),
        table.rows(WRAP),
        table.rows(CHUNK),
        table.rows(NEWER),
    ];
    (0 < normal)
        & sized(MODULE_LIMIT, normal, &others)
        & sized(
            ROW_LIMIT,
            table.importers.len(),
            &[table.kinds.len(), table.targets.len()],
        )
        & sized(
            ROW_LIMIT,
            table.rows(DEPENDENCY_MODULE),
            &[table.rows(DEPENDENCY)],
        )
        & sized(
            ROW_LIMIT,
            table.rows(STATEMENT_MODULE),
            &[table.rows(STATEMENT_INCLUDED)],
        )
}

// Uses, symbols, export chains, references and depended rows.
#[tactic(auto, unfolding(table::specs::Table::table, table::specs::Table::read, tables::specs::Refusal::sized))]
pub fn symbols_sized(table: &Table) -> bool
    ensures { result ≡ symbols_sized (written table.now) }
{
    let references = [table.rows(REFERENCE_FORM), table.rows(REFERENCE_SYMBOL)];
    sized(
        ROW_LIMIT,
        table.rows(USE_STATEMENT),
        &[table.rows(USE_RECORD)],
    ) & sized(ROW_LIMIT, table.rows(OWNER), &[table.rows(CANONICAL)])
        & sized(
            ROW_LIMIT,
            table.rows(CHAIN_SYMBOL),
            &[table.rows(CHAIN_LINK)],
        )
        & sized(ROW_LIMIT, table.rows(REFERENCE_STATEMENT), &references)
        & sized(
            ROW_LIMIT,
            table.rows(DEPENDED_REFERENCE),
            &[table.rows(DEPENDED)],
        )
}

// Chunks, members, imports, entries and seeds.
#[tactic(auto, unfolding(table::specs::Table::table, table::specs::Table::read, tables::specs::Refusal::sized))]
pub fn chunks_sized(table: &Table) -> bool
    ensures { result ≡ chunks_sized (written table.now) }
{
    sized(CHUNK_LIMIT, table.rows(ORDER), &[])
        & sized(ROW_LIMIT, table.rows(MEMBER_CHUNK), &[table.rows(MEMBER)])
        & sized(ROW_LIMIT, table.rows(IMPORT_CHUNK), &[table.rows(IMPORTS)])
        & sized(ROW_LIMIT, table.rows(ENTRY), &[table.rows(ENTRY_CHUNK)])
        & sized(ROW_LIMIT, table.rows(SEED), &[])
}
