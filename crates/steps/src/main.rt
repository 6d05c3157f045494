// Reads a project's text from standard input and an entry, its module row, from the argument, and prints the steps of the entry's load with the whole
// analysis' plan, a line each: place, module, host.
#![tactic(auto)]

use listing::TextSpace;
use load_trial::load_run;
use order_analysis::analyze_execution_order;
use parts::{first_of, split_number};
use std::io;
use std::rt::Env;
use streams::{TEXT_BYTES, read_table};
use table::{MODULE_LIMIT, NORMAL, Table};
use tables::{ModuleIdx, Refusal};

// Prints a refusal: one line in each program, since no contract says what is printed, and a function of a library needs one.
fn refused(rt: &impl Print, refusal: Refusal) -> io::Result<()> {
    println!(rt; "refused {}", refusal.number())
}

// The number that the argument is, if it is one.
fn read_entry(rt: &impl Env) -> Option<u32> {
    let mut text = [0u8; 64];
    let n = rt.arg(1, &mut text).unwrap_or(0);
    let (entry, rest) = split_number(&text[..n]);
    if n == 0 || !rest.is_empty() {
        return None;
    }
    Some(entry)
}

// A step's line.
fn print_step(rt: &impl Print, place: u64, module: u32, host: u32) -> io::Result<()> {
    println!(rt; "{place} {module} {host}")
}

// The first steps, as many as there are modules and hosts of them.
fn print_steps(rt: &impl Print, modules: &[u32], hosts: &[u32]) -> io::Result<()> {
    for (place, (&module, &host)) in modules.iter().zip(hosts).enumerate() {
        print_step(rt, place as u64, module, host)?;
    }
    Ok(())
}

// The steps of an entry's load with a plan.
fn try_plan<'a>(rt: &(impl Env + Print), table: &Table, plan: &'a [u32]) -> io::Result<()> {
    let mut steps = [0u32; MODULE_LIMIT];
    let mut hosts = [0u32; MODULE_LIMIT];
    // the mark is no module row, so a text that is no number names no entry
    let entry = read_entry(rt).unwrap_or(ModuleIdx::MISSING);
    let answer = load_run(table, entry, plan, &mut steps, &mut hosts);
    match answer {
        Err(refusal) => refused(rt, refusal),
        Ok(count) => print_steps(rt, first_of(&steps, count), &hosts),
    }
}

// The steps with the whole analysis' plan.
fn try_load(rt: &(impl Env + Print), table: &Table) -> io::Result<()> {
    let n = table.rows(NORMAL);
    let mut plan = [0u32; MODULE_LIMIT];
    let answer = analyze_execution_order(table, &mut plan);
    match answer {
        Err(refusal) => refused(rt, refusal),
        Ok(_) => try_plan(rt, table, first_of(&plan, n)),
    }
}

fn main(rt: HostRuntime) -> io::Result<()> {
    let mut text = [0u8; TEXT_BYTES];
    let mut space = TextSpace::EMPTY;
    match read_table(&mut rt.reader(), &mut text, &mut space)? {
        Err(refusal) => refused(&rt, refusal),
        Ok(table) => try_load(&rt, &table),
    }
}
