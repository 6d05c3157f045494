// Prints the worklist of each project that an argument names, from the project's own seeds, after each taking: the number of takings, the taken modules, a bar and
// the waiting ones.
#![tactic(auto)]

ghost use Rattle.std.specs.Prelude.{◌≤◌, length};

use listing::{TextSpace, read_text};
use parts::first_of;
use std::env::FillError;
use std::fs::File;
use std::io::Read;
use std::rt::{Env, Files};
use std::{io, str};
use streams::TEXT_BYTES;
use table::{MODULE_LIMIT, SEED, Table};
use tables::Refusal;
use takings_from_seeds::takings_from_seeds;

// Prints a refusal: one line in each program, since no contract says what is printed, and a function of a library needs one.
fn refused(rt: &impl Print, refusal: Refusal) -> io::Result<()> {
    println!(rt; "refused {}", refusal.number())
}

// The values from place k on.
fn rest_of(values: &[u32], k: usize) -> &[u32] {
    if values.len() < k {
        return values;
    }
    &values[k..]
}

// Prints a module, a space before it.
fn print_module(rt: &impl Print, m: u32) -> io::Result<()> {
    print!(rt; " {m}")
}

fn print_modules(rt: &impl Print, modules: &[u32]) -> io::Result<()> {
    for &m in modules {
        print_module(rt, m)?;
    }
    Ok(())
}

// Prints a list of which the first k are taken.
fn print_list(rt: &impl Print, list: &[u32], k: usize) -> io::Result<()> {
    print!(rt; "{k}:")?;
    print_modules(rt, first_of(list, k))?;
    print!(rt; " |")?;
    print_modules(rt, rest_of(list, k))?;
    println!(rt)
}

// Prints the first n of a list, of which the first k are taken.
fn print_front(rt: &impl Print, list: &[u32], n: u32, k: usize) -> io::Result<()> {
    print_list(rt, first_of(list, n as usize), k)
}

// Prints the list after each number of takings.
fn print_takings(rt: &impl Print, list: &[u32], lengths: &[u32]) -> io::Result<()> {
    for (k, &length) in lengths.iter().enumerate() {
        print_front(rt, list, length, k)?;
    }
    print_list(rt, list, list.len())
}

// Shows a worklist that was written, or the refusal.
fn show_written(
    rt: &impl Print,
    list: &[u32],
    lengths: &[u32],
    answer: Result<usize, Refusal>,
) -> io::Result<()> {
    match answer {
        Err(refusal) => refused(rt, refusal),
        Ok(count) => print_takings(rt, first_of(list, count), first_of(lengths, count)),
    }
}

// Shows the worklist of a table.
fn show_table(rt: &impl Print, table: &Table) -> io::Result<()> {
    let mut list = [0u32; MODULE_LIMIT];
    let mut lengths = [0u32; MODULE_LIMIT];
    let answer = takings_from_seeds(table, table.column(SEED), &mut list, &mut lengths);
    show_written(rt, &list, &lengths, answer)
}

// Shows that of a text.
fn show_text(rt: &impl Print, text: &[u8]) -> io::Result<()> {
    let mut space = TextSpace::EMPTY;
    match read_text(text, &mut space) {
        Err(refusal) => refused(rt, refusal),
        Ok(table) => show_table(rt, &table),
    }
}

// Reads once. A failed read ends the file.
fn read_some(input: &mut impl Read, part: &mut [u8]) -> usize
    ensures { result ≤ length part.old }
{
    input.read(part).unwrap_or(0)
}

// Reads until `text` is full, the file ends or a read fails, and says how many bytes were read.
fn read_input(input: &mut impl Read, text: &mut [u8]) -> usize
    ensures { result ≤ length text.new }
{
    let mut n = 0;
    // not `streams::read_full`, since a failed read keeps what was read
    while n < text.len() {
        let more = read_some(input, &mut text[n..]);
        if more == 0 {
            return n;
        }
        n += more;
    }
    n
}

// Shows that of an open file.
fn show_open<R: Files + Print>(rt: &R, file: &mut R::File) -> io::Result<()> {
    let mut text = [0u8; TEXT_BYTES];
    let n = read_input(file, &mut text);
    show_text(rt, &text[..n])
}

// Shows that of the file of a name.
fn show_file(rt: &(impl Files + Print), name: &[u8]) -> io::Result<()> {
    let Ok(path) = str::from_utf8(name) else {
        return refused(rt, Refusal::Text);
    };
    match File::open(rt, path) {
        Ok(mut file) => show_open(rt, &mut file),
        Err(_) => refused(rt, Refusal::Text),
    }
}

// Shows that of an argument, below its name. One that is too long for a path has none.
fn show_argument(rt: &(impl Files + Print), name: &[u8]) -> io::Result<()> {
    rt.write_all(name)?;
    println!(rt)?;
    show_file(rt, name)
}

fn main(rt: HostRuntime) -> io::Result<()> {
    // arguments are read by their number
    for i in 1..usize::MAX {
        let mut name = [0u8; 4096];
        match rt.arg(i, &mut name) {
            Ok(n) => show_argument(&rt, &name[..n])?,
            Err(FillError::TooLong) => show_argument(&rt, b"")?,
            Err(FillError::NotPresent) => return Ok(()),
        }
    }
    Ok(())
}
