// Reads a project's text from standard input and prints the pages of its analysed entries, in row order with nothing between. The plan and the grounds are made
// once, and the orders once an entry.
#![tactic(auto)]

use grounds::grounds;
use lines::put_line;
use listing::TextSpace;
use order_analysis::analyze_execution_order;
use parts::first_of;
use std::io;
use streams::{TEXT_BYTES, read_table};
use table::{ENTRY, MODULE_LIMIT, Table};
use tables::Refusal;
use wall_page::entry_page;

// Room for a line of 41 bytes for each module.
const PAGE_BYTES: usize = 167936;

// Prints a refusal.
fn refused(rt: &impl Print, refusal: Refusal) -> io::Result<()> {
    let mut out = [0u8; 64];
    let count = put_line(&mut out, b"refused", &[], &[refusal.number()]).unwrap_or(0);
    rt.write_all(first_of(&out, count))
}

// Prints the page of an entry. One that isn't analysed has none.
fn print_page<'a>(
    rt: &impl Print,
    table: &Table,
    sensitives: &'a [u32],
    plan: &'a [u32],
    root: u32,
) -> io::Result<()> {
    let mut page = [0u8; PAGE_BYTES];
    let count = entry_page(table, sensitives, plan, root, &mut page).unwrap_or(0);
    rt.write_all(first_of(&page, count))
}

// Prints the page of each analysed entry, in row order.
fn print_pages<'a>(
    rt: &impl Print,
    table: &Table,
    sensitives: &'a [u32],
    plan: &'a [u32],
) -> io::Result<()> {
    let rows = table.column(ENTRY);
    for &root in rows {
        print_page(rt, table, sensitives, plan, root)?;
    }
    Ok(())
}

// Prints the pages of a project whose plan is given.
fn planned_pages<'a>(rt: &impl Print, table: &Table, plan: &'a [u32]) -> io::Result<()> {
    let mut sensitives = [0u32; MODULE_LIMIT];
    let answer = grounds(table, &mut sensitives);
    let Ok(_) = answer else {
        return Ok(());
    };
    print_pages(rt, table, &sensitives, plan)
}

// Prints the pages of a project, or its refusal.
fn pages(rt: &impl Print, table: &Table) -> io::Result<()> {
    let mut plan = [0u32; MODULE_LIMIT];
    let answer = analyze_execution_order(table, &mut plan);
    match answer {
        Err(refusal) => refused(rt, refusal),
        Ok(_) => planned_pages(rt, table, &plan),
    }
}

fn main(rt: HostRuntime) -> io::Result<()> {
    let mut text = [0u8; TEXT_BYTES];
    let mut space = TextSpace::EMPTY;
    match read_table(&mut rt.reader(), &mut text, &mut space)? {
        Err(refusal) => refused(&rt, refusal),
        Ok(table) => pages(&rt, &table),
    }
}
