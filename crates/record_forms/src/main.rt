// Document 01's listing, its two import records lent as a slice of records, to each operation. The table's own record columns hold what no project may: they aren't read.
#![tactic(auto)]

use actual_order::actual_order;
use chunk_cycles::{chunk_reach, labels};
use cycle_risk::cycle_risk;
use entries_order::entries_order;
use expected_order::expected_order;
use grounds::grounds;
use import_circles::import_circles;
use load_trial::{load_run, load_step};
use order_analysis::analyze_execution_order;
use order_risk::order_risk;
use plan_by_worklist::plan_by_worklist;
use plan_check::check_plan;
use planned_load::LoadStep;
use record_columns::inner::columns_of;
use record_columns::{Record, with_records};
use shares::write_share;
use sort_chunk_modules::sort_chunk_modules;
use sort_modules::sort_modules;
use std::io;
use table::Table;
use tables::Refusal;
use takings_from_seeds::takings_from_seeds;
use wall_line::page_line;
use wall_page::entry_page;
use wrap_plan::plan_from_seeds;

// The listing's bounds.
const BOUNDS: [u32; 35] = [
    0, 4, 8, 12, 16, 20, 24, 28, 32, 34, 35, 35, 37, 39, 39, 39, 39, 39, 39, 39, 39, 39, 39, 39,
    39, 39, 39, 41, 45, 49, 50, 51, 52, 53, 53,
];

// The listing's columns.
const COLUMNS: [u32; 53] = [
    1, 1, 1, 1, 1, 1, 1, 1, 0, 1, 1, 1, 0, 0, 0, 0, 1, 1, 1, 1, 0, 0, 0, 0, 1, 0, 0, 1, 4294967295,
    4294967295, 4294967295, 4294967295, 9, 9, 9, 1, 1, 2, 3, 1, 0, 0, 0, 1, 1, 2, 1, 0, 3, 0, 1, 1,
    0,
];

// Modules 1 and 3.
const PLAN: [u32; 4] = [0, 1, 0, 1];

// A part of what is printed: some operations over one table. An enum, since `main` lists the parts that each listing is shown with.
#[derive(Clone, Copy)]
enum Part {
    // The sort, the two orders of entry 1, and entries 3 and 1 walked together.
    Orders,
    Circles,
    // Labels, and whether chunk 0 reaches a cyclic one.
    Cycles,
    // Both risks of entry 1, the plans from module 2, what is said of two of them, the whole analysis, and the grounds.
    Plans,
    Share,
    // The load of entry 1 with modules 1 and 3 planned, and entry 1's page.
    Pages,
    // The members of the chunks, arranged.
    Arranged,
}

// Two records of kind 0.
fn records(first: (u32, u32), second: (u32, u32)) -> [Record; 2] {
    [first, second].map(|(importer, target)| Record {
        importer,
        kind: 0,
        target,
    })
}

// Prints a word, an answer and what a slice holds, a line.
fn show(
    rt: &impl Print,
    word: &str,
    answer: Result<usize, Refusal>,
    numbers: &[u32],
) -> io::Result<()> {
    match answer {
        Ok(count) => print!(rt; "{word} {count}")?,
        Err(refusal) => print_refusal(rt, word, refusal)?,
    }
    // numbers go out in one write
    match numbers {
        [first, second, third, fourth] => println!(rt; " {first} {second} {third} {fourth}"),
        _ => println!(rt),
    }
}

fn print_refusal(rt: &impl Print, word: &str, refusal: Refusal) -> io::Result<()> {
    let number = refusal.number();
    print!(rt; "{word} refused {number}")
}

// Prints what an operation with one output gives.
fn show_one<F: FnOnce(&mut [u32]) -> Result<usize, Refusal>>(
    rt: &impl Print,
    word: &str,
    operation: F,
) -> io::Result<()>
    requires { F.IsAlwaysCallable operation }
{
    let mut out = [7u32; 4];
    let answer = operation(&mut out);
    show(rt, word, answer, &out)
}

// The same of two outputs.
fn show_two<F: FnOnce(&mut [u32], &mut [u32]) -> Result<usize, Refusal>>(
    rt: &impl Print,
    words: [&str; 2],
    operation: F,
) -> io::Result<()>
    requires { F.IsAlwaysCallable operation }
{
    let mut first = [7u32; 4];
    let mut second = [7u32; 4];
    let answer = operation(&mut first, &mut second);
    show(rt, words[0], answer, &first)?;
    show(rt, words[1], answer, &second)
}

// Prints a word, an answer, and the text that it gives.
fn show_text(
    rt: &impl Print,
    word: &str,
    answer: Result<usize, Refusal>,
    text: &[u8],
) -> io::Result<()> {
    show(rt, word, answer, &[])?;
    rt.write_all(text)?;
    println!(rt)
}

// Prints a step of a load, a line.
fn show_step(rt: &impl Print, step: Result<Option<LoadStep>, Refusal>) -> io::Result<()> {
    match step {
        Ok(Some(LoadStep { module, host })) => println!(rt; "step {module} {host}"),
        Ok(None) => println!(rt; "step done"),
        Err(refusal) => show(rt, "step", Err(refusal), &[]),
    }
}

fn show_orders(rt: &impl Print, table: &Table) -> io::Result<()> {
    show_two(rt, ["sort", "sorted"], |numbers, sorted| {
        sort_modules(table, numbers, sorted)
    })?;
    show_one(rt, "expected", |order| expected_order(table, 1, order))?;
    show_one(rt, "entries", |order| entries_order(table, &[3, 1], order))?;
    show_two(rt, ["actual", "hosts"], |order, hosts| {
        actual_order(table, 1, order, hosts)
    })
}

fn show_plans(rt: &impl Print, table: &Table) -> io::Result<()> {
    let seeds = [2];
    show_one(rt, "early", |marks| order_risk(table, 1, marks))?;
    show_one(rt, "cycle", |marks| cycle_risk(table, 1, marks))?;
    show_one(rt, "plan", |marks| plan_from_seeds(table, &seeds, marks))?;
    show_one(
        rt,
        "worklist",
        |marks| plan_by_worklist(table, &seeds, marks),
    )?;
    show_two(rt, ["list", "takings"], |list, lengths| {
        takings_from_seeds(table, &seeds, list, lengths)
    })?;
    // accepted, and what rule (i) asks for lacks
    for plan in [[0, 1, 1, 1], [0, 0, 1, 0]] {
        let said = check_plan(table, &seeds, &plan).map(|judgement| judgement.number() as usize);
        show(rt, "check", said, &[])?;
    }
    show_one(
        rt,
        "analysis",
        |marks| analyze_execution_order(table, marks),
    )?;
    show_one(rt, "grounds", |marks| grounds(table, marks))
}

fn show_pages(rt: &impl Print, table: &Table) -> io::Result<()> {
    show_two(rt, ["steps", "by"], |steps, hosts| {
        load_run(table, 1, &PLAN, steps, hosts)
    })?;
    // the first step, and the one past the last
    for number in [0, 4] {
        show_step(rt, load_step(table, 1, &PLAN, number))?;
    }
    // the first line, and the one past the last
    for number in [0, 4] {
        let mut line = [b'.'; 41];
        let answer = page_line(table, 1, number, &mut line);
        show_text(rt, "line", answer, &line)?;
    }
    let mut page = [b'.'; 164];
    let answer = entry_page(table, &[0, 1, 1, 1], &PLAN, 1, &mut page);
    show_text(rt, "page", answer, &page)
}

// A part, over a table.
fn show_part(rt: &impl Print, table: &Table, part: Part) -> io::Result<()> {
    match part {
        Part::Orders => show_orders(rt, table),
        Part::Circles => show_two(rt, ["circles", "lengths"], |paths, lengths| {
            import_circles(table, paths, lengths)
        }),
        Part::Cycles => {
            show_one(rt, "labels", |out| labels(table, out))?;
            show(rt, "reach", chunk_reach(table, 0), &[])
        }
        Part::Plans => show_plans(rt, table),
        Part::Share => show_one(rt, "share", |out| write_share(table, out)),
        Part::Pages => show_pages(rt, table),
        Part::Arranged => show_one(rt, "arranged", |out| sort_chunk_modules(table, out)),
    }
}

// Parts over the listing with these names, read with these records.
fn show_listing(
    rt: &impl Print,
    names: &[u8],
    records: [Record; 2],
    parts: &[Part],
) -> io::Result<()> {
    let listing = Table::new(0, 0, &BOUNDS, &COLUMNS, names);
    let columns = columns_of(&records);
    match with_records(&listing, &columns) {
        Ok(table) => {
            for part in parts {
                show_part(rt, &table, *part)?;
            }
            Ok(())
        }
        Err(refusal) => show(rt, "records", Err(refusal), &[]),
    }
}

fn main(rt: HostRuntime) -> io::Result<()> {
    let rows = records((1, 2), (1, 3));
    let all = [Part::Orders, Part::Circles, Part::Cycles, Part::Plans];
    show_listing(&rt, b"", rows, &all)?;
    // two modules that import each other
    let ring = records((1, 2), (2, 1));
    show_listing(&rt, b"", ring, &[Part::Circles])?;
    show_listing(&rt, b"", rows, &[Part::Share, Part::Pages])?;
    // a first column that falls is 3
    let falling = records((2, 3), (1, 2));
    show_listing(&rt, b"", falling, &[Part::Orders, Part::Circles])?;
    // the second member of each chunk has a name that comes first
    let names = b"a\nrolldown:b\nc\n~rolldown/d\n";
    show_listing(&rt, names, rows, &[Part::Orders, Part::Arranged])?;
    // no names, and fewer names than modules, are 2
    show_listing(&rt, b"", rows, &[Part::Arranged])?;
    show_listing(&rt, b"a\n", rows, &[Part::Cycles])
}
