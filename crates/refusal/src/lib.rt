// The tests 1 to 4 and 10 of a table, its names among what 1 and 2 test.
#![tactic(auto)]

ghost use Rattle.std.specs.Prelude.{◌≡◌};
ghost use Rattle.table.specs.Table.{bounds_fit, table_refusal, tested_too};
ghost use Rattle.table.specs.Lending.{as_lent, written};
ghost use Rattle.tables.specs.Refusal.{refusal};
ghost use Rattle.tables.specs.Answers.{tested};
ghost use Rattle.refusal.specs.Reading.{ReadAs, as_written};

use column_tests::inner::{is_rising, newer_fits};
use current_columns::inner::{Current, ReadSpace, read_table, written_table};
use names::{names_in, names_sized};
use size_tests::inner::{chunks_sized, code_sized, symbols_sized};
use table::{COLUMNS, NEWER, NORMAL, Table};
use tables::Refusal;
use value_tests::agree::{rows_agree, rows_rise};
use value_tests::inner::{chunks_in, code_in, symbols_in};

// Whether the columns' bounds fit: 35 that rise from 0 to the end.
#[tactic(auto, unfolding(table::specs::Table::bounds_fit))]
fn bounds_fit(table: &Table) -> bool
    ensures { result ≡ bounds_fit table.now.bounds.now table.now.columns.now }
{
    let bounds = table.bounds;
    if bounds.len() != COLUMNS + 1 {
        return false;
    }
    (bounds[0] == 0) & (bounds[COLUMNS] as usize == table.columns.len()) & is_rising(bounds)
}

// What refuses the project of a table: the first of the tests 1 to 4 and 10 that fails.
#[tactic(auto, unfolding(tables::specs::Refusal::refusal, tables::specs::Refusal::sizes_fit, tables::specs::Refusal::values_fit, table::specs::Table::table, table::specs::Table::read))]
fn project_refusal(table: &Table) -> Option<Refusal>
    ensures { result ≡ refusal (written table.now) }
{
    let sizes_fit = code_sized(table) & symbols_sized(table) & chunks_sized(table);
    if !sizes_fit {
        return Some(Refusal::ListSize);
    }
    let values_fit = code_in(table) & symbols_in(table) & chunks_in(table);
    if !values_fit {
        return Some(Refusal::ColumnValue);
    }
    if !rows_rise(table) {
        return Some(Refusal::RowOrder);
    }
    if !rows_agree(table) {
        return Some(Refusal::RowConflict);
    }
    if !newer_fits(table.column(NEWER)) {
        return Some(Refusal::NewerRow);
    }
    None
}

// What refuses a table: 1 where its bounds don't fit, else what refuses its project.
fn table_refusal(table: &Table) -> Option<Refusal>
    ensures { result ≡ table_refusal table.now.bounds.now table.now.columns.now (written table.now) }
{
    if !bounds_fit(table) {
        return Some(Refusal::ListSize);
    }
    project_refusal(table)
}

// What refuses where 1 tests one thing more, and 2 another.
pub fn tested_too(refused: Option<Refusal>, one: bool, two: bool) -> Option<Refusal>
    ensures { result ≡ tested_too refused one two }
{
    match refused {
        Some(Refusal::ListSize) => refused,
        _ if !one => Some(Refusal::ListSize),
        Some(Refusal::ColumnValue) => refused,
        _ if !two => Some(Refusal::ColumnValue),
        _ => refused,
    }
}

// Tests a table with its names.
#[tactic(auto, unfolding(table::specs::Table::table, table::specs::Table::read))]
pub fn test(table: &Table) -> Result<(), Refusal>
    ensures { result ≡ tested (as_lent table.now).refused }
{
    let names = table.names;
    let refused = table_refusal(table);
    let modules = table.rows(NORMAL);
    match tested_too(refused, names_sized(names), names_in(names, modules)) {
        None => Ok(()),
        Some(refusal) => Err(refusal),
    }
}

// Tests a table with its names, and gives it as it is written.
pub fn test_written<'t>(table: &Table<'t>) -> Result<Current<'t>, Refusal>
    ensures { ReadAs (as_written table.now) result }
{
    match test(table) {
        Ok(()) => Ok(written_table(table)),
        Err(refusal) => Err(refusal),
    }
}

// Tests a table with its names, and gives it as it is read.
pub fn read_tested<'a, 't: 'a>(
    table: &Table<'t>,
    space: &'a mut ReadSpace,
) -> Result<Current<'a>, Refusal>
    ensures { ReadAs (as_lent table.now) result }
{
    test(table)?;
    Ok(read_table(table, space))
}
