// Reads a project's text from standard input and prints its module order, its import circles, the orders and both risks of each analysed entry, the grounds of the
// sensitive modules, and the plan.
#![tactic(auto)]

use actual_order::actual_order;
use cycle_risk::cycle_risk;
use expected_order::expected_order;
use grounds::grounds;
use import_circles::import_circles;
use lines::{put_line, rising};
use listing::TextSpace;
use order_analysis::analyze_execution_order;
use order_risk::order_risk;
use parts::first_of;
use sort_modules::sort_modules;
use std::io;
use streams::{TEXT_BYTES, read_table};
use table::{ENTRY, MODULE_LIMIT, ROW_LIMIT, Table};
use tables::Refusal;

// Prints a result line, as long as this program's lines get. No library has it, for a library's function needs a promise, and of what is printed there is none.
fn print(rt: &impl Print, word: &[u8], entry: &[u32], numbers: &[u32]) -> io::Result<()> {
    let mut out = [0u8; 32768];
    let count = put_line(&mut out, word, entry, numbers).unwrap_or(0);
    rt.write_all(first_of(&out, count))
}

// Prints a line of the values that an operation writes, if it does.
fn print_list<F: FnOnce(&mut [u32]) -> Result<usize, Refusal>>(
    rt: &impl Print,
    word: &[u8],
    entry: &[u32],
    operation: F,
) -> io::Result<()>
    requires { F.IsAlwaysCallable operation }
{
    let mut values = [0u32; MODULE_LIMIT];
    let Ok(n) = operation(&mut values) else {
        return Ok(());
    };
    print(rt, word, entry, first_of(&values, n))
}

// Prints a line of the members, rising, of the set that an operation writes, if it does.
fn print_set<F: FnOnce(&mut [u32]) -> Result<usize, Refusal>>(
    rt: &impl Print,
    word: &[u8],
    entry: &[u32],
    operation: F,
) -> io::Result<()>
    requires { F.IsAlwaysCallable operation }
{
    let mut marks = [0u32; MODULE_LIMIT];
    let Ok(_) = operation(&mut marks) else {
        return Ok(());
    };
    print_list(rt, word, entry, |members| rising(&marks, members))
}

// Prints each path as a line: they stand one after the other, with these lengths.
fn print_circles<'a>(rt: &impl Print, paths: &'a [u32], lengths: &'a [u32]) -> io::Result<()> {
    let mut left = paths;
    for &length in lengths {
        let Some((path, behind)) = left.split_at_checked(length as usize) else {
            return Ok(());
        };
        print(rt, b"circle", &[], path)?;
        left = behind;
    }
    Ok(())
}

// Prints the circles that were counted, or that there are too many of them.
fn counted_circles<'a>(
    rt: &impl Print,
    paths: &'a [u32],
    lengths: &'a [u32],
    answer: Result<usize, Refusal>,
) -> io::Result<()> {
    match answer {
        Err(_) => { rt.write_all(b"circles refused\n") }
        Ok(n) => print_circles(rt, paths, first_of(lengths, n)),
    }
}

// Prints the import circles.
fn circle_lines(rt: &impl Print, table: &Table) -> io::Result<()> {
    let mut paths = [0u32; ROW_LIMIT];
    let mut lengths = [0u32; ROW_LIMIT];
    let answer = import_circles(table, &mut paths, &mut lengths);
    counted_circles(rt, &paths, &lengths, answer)
}

// Prints the lines of an entry whose actual order was written.
fn analysed_lines(
    rt: &impl Print,
    table: &Table,
    root: u32,
    actual: &[u32],
    answer: Result<usize, Refusal>,
) -> io::Result<()> {
    let Ok(n) = answer else {
        return Ok(());
    };
    let entry = [root];
    print_list(
        rt,
        b"expected",
        &entry,
        |order| expected_order(table, root, order),
    )?;
    print(rt, b"actual", &entry, first_of(actual, n))?;
    print_set(rt, b"early", &entry, |marks| order_risk(table, root, marks))?;
    print_set(rt, b"cycle", &entry, |marks| cycle_risk(table, root, marks))
}

// Prints the lines of an entry. Actual order refuses an entry that isn't analysed.
fn entry_lines(rt: &impl Print, table: &Table, root: u32) -> io::Result<()> {
    let mut actual = [0u32; MODULE_LIMIT];
    let mut hosts = [0u32; MODULE_LIMIT];
    let answer = actual_order(table, root, &mut actual, &mut hosts);
    analysed_lines(rt, table, root, &actual, answer)
}

// Prints the lines of each analysed entry, in row order.
fn entries(rt: &impl Print, table: &Table) -> io::Result<()> {
    let rows = table.column(ENTRY);
    for &root in rows {
        entry_lines(rt, table, root)?;
    }
    Ok(())
}

// Prints the line of a module that has a ground.
fn ground_line(rt: &impl Print, module: u32, ground: u32) -> io::Result<()> {
    if ground == 0 {
        return Ok(());
    }
    print(rt, b"ground", &[module], &[ground])
}

// Prints the line of each module that has a ground, rising.
fn lines_of_grounds(rt: &impl Print, marks: &[u32; MODULE_LIMIT]) -> io::Result<()> {
    for (m, &ground) in marks.iter().enumerate() {
        ground_line(rt, m as u32, ground)?;
    }
    Ok(())
}

// Prints the lines of the sensitive modules.
fn ground_lines(rt: &impl Print, table: &Table) -> io::Result<()> {
    let mut marks = [0u32; MODULE_LIMIT];
    let answer = grounds(table, &mut marks);
    let Ok(_) = answer else {
        return Ok(());
    };
    lines_of_grounds(rt, &marks)
}

// Prints the lines of a project whose module order was written, or its refusal.
fn sorted_lines(
    rt: &impl Print,
    table: &Table,
    sorted: &[u32],
    answer: Result<usize, Refusal>,
) -> io::Result<()> {
    match answer {
        Err(refusal) => print(rt, b"refused", &[], &[refusal.number()]),
        Ok(n) => {
            print(rt, b"sorted", &[], first_of(sorted, n))?;
            circle_lines(rt, table)?;
            entries(rt, table)?;
            ground_lines(rt, table)?;
            print_set(
                rt,
                b"plan",
                &[],
                |marks| analyze_execution_order(table, marks),
            )
        }
    }
}

// Prints the lines of a project, or its refusal.
fn lines(rt: &impl Print, table: &Table) -> io::Result<()> {
    let mut numbers = [0u32; MODULE_LIMIT];
    let mut sorted = [0u32; MODULE_LIMIT];
    let answer = sort_modules(table, &mut numbers, &mut sorted);
    sorted_lines(rt, table, &sorted, answer)
}

fn main(rt: HostRuntime) -> io::Result<()> {
    let mut text = [0u8; TEXT_BYTES];
    let mut space = TextSpace::EMPTY;
    match read_table(&mut rt.reader(), &mut text, &mut space)? {
        Err(refusal) => print(&rt, b"refused", &[], &[refusal.number()]),
        Ok(table) => lines(&rt, &table),
    }
}
