// Runs the reader on every text of the list on standard input, and then the line writer at its edges.
//
// First how many texts. Each is a line with `#` and what it is, and a line with its number, the list of the project that it changes (15: none of them) and how many pieces it has.
// A piece is a line with how often it stands there and how many bytes it has, then these bytes and a line end.
//
// A printed line is: `case`, its number, the list that it changes, the reading's number, the count of values, the number of the project test and how
// many bytes the names have; few names are written behind it.
#![tactic(auto)]

use lines::{put_line, rising};
use listing::{Reading, read};
use parts::{first_of, part_of};
use refusal::test;
use std::io;
use streams::read_full;
use table::{COLUMNS, Table};
use tables::Refusal;

// What is left of the list.
#[derive(Clone, Copy)]
struct List<'a> {
    left: &'a [u8],
}

impl<'a> List<'a> {
    // Passes the next n bytes, or all where there are fewer.
    fn take(&mut self, n: usize) -> &'a [u8] {
        let left = self.left;
        let (first, behind) = left.split_at_checked(n).unwrap_or((left, &[]));
        self.left = behind;
        first
    }

    // Passes the line at hand.
    fn pass_line(&mut self) {
        let line = self.left.iter().take_while(|b| **b != b'\n').count();
        self.take(line);
        self.take(1);
    }

    // The number whose digits stand next, and passes the byte that ends it. Not `split_number`, since each byte from `0` on is a digit here.
    fn number(&mut self) -> u32 {
        let count = self.left.iter().take_while(|b| b'0' <= **b).count();
        let digits = self.take(count);
        self.take(1);
        digits.iter().fold(0, |value: u32, digit| {
            let digit = digit.saturating_sub(b'0');
            value.saturating_mul(10).saturating_add(u32::from(digit))
        })
    }
}

// A text that is put together. What it has no room for is left out. Bytes and size, as there is no heap for a String.
#[derive(Drop)]
struct Text<'a> {
    bytes: &'a mut [u8],
    size: usize,
}

impl<'a> Text<'a> {
    fn put_byte(&mut self, b: u8) {
        if self.size < self.bytes.len() {
            self.bytes[self.size] = b;
            self.size += 1;
        }
    }

    fn put(&mut self, bytes: &[u8]) {
        for b in bytes {
            self.put_byte(*b);
        }
    }

    // Puts bytes as often as is said.
    fn put_rows(&mut self, row: &[u8], times: u32) {
        // a row is put as often as is said
        for _ in 0..times {
            self.put(row);
        }
    }

    // Puts a piece of the list, as often as it says.
    fn put_piece(&mut self, list: &mut List) {
        let times = list.number();
        let size = list.number();
        let piece = list.take(size as usize);
        list.pass_line();
        self.put_rows(piece, times);
    }

    // Puts the pieces of a text.
    fn put_pieces(&mut self, list: &mut List, pieces: u32) {
        // pieces are read as they come, and counted
        for _ in 0..pieces {
            self.put_piece(list);
        }
    }
}

// Prints a line, in this program's room; `planner` has more, and a library's function would need a promise of what is printed.
fn print(rt: &impl Print, word: &[u8], entry: &[u32], numbers: &[u32]) -> io::Result<()> {
    let mut out = [0u8; 256];
    let count = put_line(&mut out, word, entry, numbers).unwrap_or(0);
    rt.write_all(first_of(&out, count))
}

// The number of the project test, 0 where it is passed.
fn tested(table: &Table) -> u32 {
    match test(table) {
        Ok(_) => 0,
        Err(refusal) => refusal.number(),
    }
}

// How many bytes a part of a text has.
fn size_of(part: &[u8]) -> u32 {
    if 65536 < part.len() {
        return 65537;
    }
    part.len() as u32
}

// Writes few names.
fn write_names(rt: &impl Print, names: &[u8]) -> io::Result<()> {
    if names.len() <= 256 {
        rt.write_all(names)?;
    }
    Ok(())
}

fn counted<'a>(
    rt: &impl Print,
    case: u32,
    list: u32,
    k: usize,
    settings: [u32; 2],
    bounds: &'a [u32; COLUMNS + 1],
    columns: &'a [u32; 32768],
    names: &'a [u8],
) -> io::Result<()> {
    if 32768 < k {
        return Ok(());
    }
    let table = Table::new(
        settings[0],
        settings[1],
        bounds,
        first_of(columns, k),
        names,
    );
    let number = tested(&table);
    print(
        rt,
        b"case",
        &[case, list],
        &[0, k as u32, number, size_of(names)],
    )?;
    write_names(rt, names)
}

// Reads a text, and prints the answer.
fn answer(rt: &impl Print, case: u32, list: u32, text: &[u8]) -> io::Result<()> {
    let mut settings = [0u32; 2];
    let mut bounds = [0u32; COLUMNS + 1];
    let mut columns = [0u32; 32768];
    let answer = read(text, &mut settings, &mut bounds, &mut columns);
    match answer {
        Err(refusal) => print(rt, b"case", &[case, list], &[refusal.number()]),
        Ok(Reading { values, from, to }) => counted(
            rt,
            case,
            list,
            values,
            settings,
            &bounds,
            &columns,
            part_of(text, from, to),
        ),
    }
}

// Reads the text that stands next, and prints the answer.
fn run_case(rt: &impl Print, list: &mut List) -> io::Result<()> {
    let mut bytes = [0u8; 66000];
    let mut text = Text {
        bytes: &mut bytes,
        size: 0,
    };
    list.pass_line();
    let case = list.number();
    let changed = list.number();
    let pieces = list.number();
    text.put_pieces(list, pieces);
    let size = text.size;
    answer(rt, case, changed, first_of(&bytes, size))
}

// Runs all texts of the list.
fn run_cases(rt: &impl Print, list: &mut List) -> io::Result<()> {
    // texts are read as they come, and counted
    for _ in 0..list.number() {
        run_case(rt, list)?;
    }
    Ok(())
}

fn line_answer(rt: &impl Print, answer: Result<usize, Refusal>) -> io::Result<()> {
    match answer {
        Err(refusal) => print(rt, b"refused", &[], &[refusal.number()]),
        Ok(_) => print(rt, b"counted", &[], &[]),
    }
}

// Prints what a line into this slice answers, and what stands there then.
fn line_case(rt: &impl Print, line: &mut [u8], numbers: &[u32]) -> io::Result<()> {
    line_answer(rt, put_line(line, b"of", &[], numbers))?;
    rt.write_all(line)
}

// A line of 8 bytes into slices of 8 and of 7.
fn line_cases(rt: &impl Print, numbers: &[u32]) -> io::Result<()> {
    let mut long = [46u8; 8];
    let mut short = [46u8; 7];
    line_case(rt, &mut long, numbers)?;
    line_case(rt, &mut short, numbers)?;
    print(rt, b"", &[], &[])
}

// Prints what the members of a set into this slice answer, and what stands there then.
fn rising_case(rt: &impl Print, marks: &[u32], list: &mut [u32]) -> io::Result<()> {
    line_answer(rt, rising(marks, list))?;
    print(rt, b"members", &[], list)
}

// The members of a set, with room and without.
fn rising_cases(rt: &impl Print, marks: &[u32]) -> io::Result<()> {
    let mut list = [7u32; 4];
    let mut less = [7u32; 3];
    rising_case(rt, marks, &mut list)?;
    rising_case(rt, marks, &mut less)
}

// Runs the texts of the list on standard input.
fn run_list(rt: &(impl Input + Print)) -> io::Result<()> {
    let mut list = [0u8; 65536];
    let n = read_full(&mut rt.reader(), &mut list)?;
    run_cases(rt, &mut List { left: &list[..n] })
}

fn main(rt: HostRuntime) -> io::Result<()> {
    run_list(&rt)?;
    line_cases(&rt, &[4294967295, 10])?;
    print(&rt, b"largest", &[4294967294], &[0, 9, 10, 99, 100])?;
    rising_cases(&rt, &[0, 1, 0, 2])
}
