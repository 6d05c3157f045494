// Reads a project's text from standard input, a plan and seeds from the arguments, each module numbers with a comma behind each, and says in words
// whether the plan is accepted or what it breaks first.
#![tactic(auto)]

use listing::TextSpace;
use parts::{first_of, split_number};
use plan_check::check_plan;
use plan_conditions::Judgement;
use std::io;
use std::rt::Env;
use streams::{TEXT_BYTES, read_table};
use table::{MODULE_LIMIT, NORMAL, Table};
use tables::Refusal;

// The numbers of a text, a comma behind each, written to `out`: how many, if it is such a text and they fit.
fn read_numbers(text: &[u8], out: &mut [u32]) -> Option<usize> {
    let mut count = 0;
    let mut left = text;
    // numbers are read as they come
    loop {
        let (value, rest) = split_number(left);
        match rest.split_first() {
            None => return Some(count),
            Some((b',', behind)) => {
                *out.get_mut(count)? = value;
                count += 1;
                left = behind;
            }
            Some(_) => return None,
        }
    }
}

// The numbers of an argument.
fn read_argument(rt: &impl Env, i: usize, out: &mut [u32]) -> Option<usize> {
    let mut text = [0u8; 65536];
    let n = rt.arg(i, &mut text).unwrap_or(0);
    read_numbers(&text[..n], out)
}

// Marks the members of a plan. Whether each is one of n modules.
fn mark_members(members: &[u32], marks: &mut [u32], n: usize) -> bool {
    for &m in members {
        let m = m as usize;
        if n <= m || marks.len() <= m {
            return false;
        }
        marks[m] = 1;
    }
    true
}

// Prints a refusal: one line in each program, since no contract says what is printed, and a function of a library needs one.
fn refused(rt: &impl Print, refusal: Refusal) -> io::Result<()> {
    println!(rt; "refused {}", refusal.number())
}

// Which condition a module breaks.
fn broken(rt: &impl Print, condition: u32, module: u32) -> io::Result<()> {
    print!(rt; "module {module}")?;
    match condition {
        1 => println!(rt; " is in the plan and isn't eligible"),
        2 => println!(rt; " is an eligible seed and isn't in the plan"),
        3 => println!(rt;
            " isn't in the plan; by rule (i) it has to be: it follows a planned module in an entry's expected sensitive order"
        ),
        4 => println!(rt;
            " isn't in the plan; by rule (ii) it has to be: its chunk is in a cycle with a planned module's chunk"
        ),
        5 => println!(rt;
            " isn't in the plan; by rule (iii) it has to be: it depends on a planned module and imports what leads to one"
        ),
        _ => println!(rt;
            " isn't in the plan; by rule (iv) it has to be: it reads what touches a planned module"
        ),
    }
}

fn say(rt: &impl Print, judgement: Result<Judgement, Refusal>) -> io::Result<()> {
    match judgement {
        Ok(Judgement::Accepted) => println!(rt; "accepted"),
        Ok(Judgement::Broken(condition, module)) => broken(rt, condition, module),
        Err(refusal) => refused(rt, refusal),
    }
}

// Judges marks with the seeds of the second argument.
fn judge(rt: &(impl Env + Print), table: &Table, plan: &[u32]) -> io::Result<()> {
    let mut seeds = [0u32; 16386];
    let list = read_argument(rt, 2, &mut seeds);
    match list {
        Some(n) => say(rt, check_plan(table, first_of(&seeds, n), plan)),
        None => refused(rt, Refusal::Argument),
    }
}

// Judges the plan of the first argument.
fn judge_listed(rt: &(impl Env + Print), table: &Table, members: &[u32]) -> io::Result<()> {
    let n = table.rows(NORMAL);
    let mut marks = [0u32; MODULE_LIMIT];
    if mark_members(members, &mut marks, n) {
        return judge(rt, table, first_of(&marks, n));
    }
    judge(rt, table, &[])
}

// Judges it, read from its argument.
fn judge_argument(rt: &(impl Env + Print), table: &Table) -> io::Result<()> {
    let mut members = [0u32; 16386];
    let list = read_argument(rt, 1, &mut members);
    match list {
        Some(n) => judge_listed(rt, table, first_of(&members, n)),
        None => judge(rt, table, &[]),
    }
}

fn main(rt: HostRuntime) -> io::Result<()> {
    let mut text = [0u8; TEXT_BYTES];
    let mut space = TextSpace::EMPTY;
    match read_table(&mut rt.reader(), &mut text, &mut space)? {
        Err(refusal) => refused(&rt, refusal),
        Ok(table) => judge_argument(&rt, &table),
    }
}
