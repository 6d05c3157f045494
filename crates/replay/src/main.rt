// Runs the library on every call of a replay list, which stands on standard input, and compares each answer and both outputs, whole,
// with what the list says. README.md says how the list was made.
//
// First how many cases. A case is a line with `#` and its name; then how many bounds and these; how many values the columns have and these; how many bytes
// the names have and these, as numbers; `runtime dynamic`, what every output holds before a call, and how many calls. A call is its operation, its argument,
// 0 and the count or 1 and the refusal's number, and how many places each of two outputs has; how many seeds or entries and these; and for each output how
// many places are written and these. `-` is the missing mark. In a list, `5*0` stands for five zeros, `3*8+2` for 8 10 12, `3*8~2` for 8 6 4, `6*8+1/2` for
// 8 8 9 9 10 10; and `5.` for the five values that stand there in the case before. Without names a case has a 0 for them.
#![tactic(auto)]

use operations::Operation;
use scanner::Scanner;
use std::io;
use streams::read_full;
use table::Table;
use tables::Refusal;

mod operations;
mod scanner;

// How many places an output can have.
pub const PLACES: usize = 16392;

// A call, and what the list says of its answer.
#[derive(Drop)]
struct Call {
    // The whole analysis where no operation has its number.
    operation: Operation,
    argument: u32,
    // The answer, of a refusal its number; None where the list says neither.
    said: Option<Result<usize, u32>>,
    // How many places the two outputs have.
    first: usize,
    second: usize,
}

// The answer that a list says: 0 and the count, or 1 and the refusal's number.
fn said_answer(kind: u32, number: u32) -> Option<Result<usize, u32>> {
    match kind {
        0 => Some(Ok(number as usize)),
        1 => Some(Err(number)),
        _ => None,
    }
}

impl Call {
    // The call that a list has next.
    fn read(scanner: &mut Scanner) -> Self {
        let [operation, argument, kind, number, first, second] = scanner.values::<6>();
        Call {
            operation: Operation::try_from(operation).unwrap_or(Operation::WholeAnalysis),
            argument,
            said: said_answer(kind, number),
            first: first as usize,
            second: second as usize,
        }
    }

    // What it gives, none where it can't be made.
    fn answer(
        &self,
        table: &Table,
        list: &[u32],
        first: &mut [u32],
        second: &mut [u32],
    ) -> Option<Result<usize, Refusal>> {
        let first = first.get_mut(..self.first)?;
        let second = second.get_mut(..self.second)?;
        self.operation
            .answer(table, self.argument, list, first, second)
    }

    // Whether an answer is the one that the list says, which has refusal 0 for a call that can't be made.
    fn agrees(&self, answer: Option<Result<usize, Refusal>>) -> bool {
        match (answer, self.said) {
            (Some(Ok(count)), Some(Ok(said))) => count == said,
            (Some(Err(refusal)), Some(Err(said))) => refusal.number() == said,
            (None, Some(Err(said))) => said == 0,
            _ => false,
        }
    }
}

// How many calls there were, and how many of them agreed.
#[derive(Clone, Copy, Default)]
struct Tally {
    calls: u64,
    agree: u64,
}

impl Tally {
    // Both together.
    fn and(self, more: Tally) -> Self {
        Tally {
            calls: self.calls.saturating_add(more.calls),
            agree: self.agree.saturating_add(more.agree),
        }
    }
}

fn print_answer(rt: &impl Print, answer: Option<Result<usize, Refusal>>) -> io::Result<()> {
    match answer {
        Some(Ok(count)) => print!(rt; " gives count {count}"),
        Some(Err(refusal)) => {
            let number = refusal.number();
            print!(rt; " gives refusal {number}")
        }
        None => print!(rt; " gives refusal 0"),
    }
}

// Says where each output differs first, its end where it doesn't.
fn print_differences(
    rt: &impl Print,
    in_first: Option<usize>,
    in_second: Option<usize>,
) -> io::Result<()> {
    let first = in_first.unwrap_or(PLACES);
    let second = in_second.unwrap_or(PLACES);
    print!(rt; ", differs in the first output at {first}, in the second at {second}")
}

// Makes the next call, and says whether it gave what the list says. One that differs is reported by its number.
fn call_agrees(
    rt: &impl Print,
    scanner: &mut Scanner,
    table: &Table,
    filler: u32,
    number: u32,
) -> io::Result<bool> {
    let call = Call::read(scanner);
    let mut room = [0u32; 16385];
    let list = scanner.list(&mut room);
    let mut first = [filler; PLACES];
    let mut second = [filler; PLACES];
    let answer = call.answer(table, list, &mut first, &mut second);
    let in_first = scanner.difference(&first, filler);
    let in_second = scanner.difference(&second, filler);
    if call.agrees(answer) && in_first.is_none() && in_second.is_none() {
        return Ok(true);
    }
    print!(rt; "\ncall {number}")?;
    print_answer(rt, answer)?;
    print_differences(rt, in_first, in_second)?;
    Ok(false)
}

// Makes the calls of a case, and says how many agreed.
fn calls_agree(
    rt: &impl Print,
    scanner: &mut Scanner,
    table: &Table,
    filler: u32,
    calls: u32,
) -> io::Result<u32> {
    let mut agree: u32 = 0;
    // calls are read as they come, and counted
    for call in 0..calls {
        if call_agrees(rt, scanner, table, filler, call + 1)? {
            agree = agree.saturating_add(1);
        }
    }
    Ok(agree)
}

// A case: its bounds, columns and names stay in these slices for the next.
fn case(
    rt: &impl Print,
    scanner: &mut Scanner,
    bounds: &mut [u32],
    columns: &mut [u32],
    names: &mut [u8],
) -> io::Result<Tally> {
    rt.write_all(scanner.line())?;
    let bounds = scanner.list(bounds);
    let columns = scanner.list(columns);
    let names = scanner.bytes(names);
    let [runtime, dynamic, filler, calls] = scanner.values::<4>();
    let table = Table::new(runtime, dynamic, bounds, columns, names);
    let agree = calls_agree(rt, scanner, &table, filler, calls)?;
    if agree == calls {
        println!(rt; ": ok, {calls} calls")?;
    } else {
        println!(rt; "\nDIFFERS, agree {agree} of {calls}")?;
    }
    Ok(Tally {
        calls: u64::from(calls),
        agree: u64::from(agree),
    })
}

// Runs the list's cases, with the room that they share.
fn replay(rt: &impl Print, scanner: &mut Scanner) -> io::Result<()> {
    let mut bounds = [0u32; 64];
    let mut columns = [0u32; 131072];
    let mut names = [0u8; 266240];
    let cases = scanner.number();
    let mut all = Tally::default();
    // cases are read as they come, and counted
    for _ in 0..cases {
        all = all.and(case(rt, scanner, &mut bounds, &mut columns, &mut names)?);
    }
    let Tally { calls, agree } = all;
    println!(rt; "cases {cases}, calls {calls}, agree {agree}")
}

// Reads a list into this room, and runs it.
fn replay_input(rt: &(impl Input + Print), room: &mut [u8]) -> io::Result<()> {
    let length = read_full(&mut rt.reader(), room)?;
    replay(rt, &mut Scanner::new(&room[..length]))
}

fn main(rt: HostRuntime) -> io::Result<()> {
    replay_input(&rt, &mut [0; 524288])
}
