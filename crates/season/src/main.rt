// Reads the names of projects' files from standard input, a name a line, and prints each project's share as it is made, then the totals.
#![tactic(auto)]

ghost use Rattle.std.specs.Prelude.{◌≡◌, ◌≤◌, length, IfOk, IfSome};
ghost use Rattle.share_totals.specs.Sums.{added};
ghost use Rattle.share_totals.specs.Within.{Fits, Within};
ghost use Rattle.season.specs.Sound.{Sound, Room, Acted};

use file_names::{NAME_BYTES, Names, begin, finish, take_byte};
use parts::first_of;
use report_lines::inner::put_totals;
use report_lines::put_outcome;
use share_text::share_of_text;
use share_totals::inner::{add, no_project};
use share_totals::{Share, Totals};
use std::fs::File;
use std::io::Read;
use std::rt::Files;
use std::{io, str};
use streams::{TEXT_BYTES, read_full};
use tables::Refusal;

// What is known of the names, and the totals so far.
#[derive(Clone, Copy)]
pub struct Season {
    pub names: Names,
    pub totals: Totals,
    ghost sound: { Sound names totals },
}

// What is known after a piece of the input, and whether more may come: the season is there either way, so no Option says it.
#[derive(Clone, Copy)]
pub struct Taken {
    pub season: Season,
    pub more: bool,
}

// Prints the line of an outcome.
fn print_outcome(rt: &impl Print, outcome: Result<Share, Refusal>) -> io::Result<()> {
    let mut out = [0u8; 64];
    let count = put_outcome(&mut out, outcome).unwrap_or(0);
    rt.write_all(first_of(&out, count))
}

// Prints the closing line.
fn print_totals(rt: &impl Print, totals: Totals) -> io::Result<()> {
    let mut out = [0u8; 64];
    let count = put_totals(&mut out, totals).unwrap_or(0);
    rt.write_all(first_of(&out, count))
}

// Reads once: how many bytes, or none where the read failed.
fn read_some(input: &mut impl Read, part: &mut [u8]) -> Option<usize>
    ensures { IfSome result (λ n. n ≤ length part.old) }
{
    input.read(part).ok()
}

// The outcome of an open file.
fn share_of_descriptor(file: &mut impl Read) -> Result<Share, Refusal>
    ensures { Fits result }
{
    let mut text = [0u8; TEXT_BYTES];
    let Ok(n) = read_full(file, &mut text) else {
        return Err(Refusal::Text);
    };
    share_of_text(first_of(&text, n))
}

// The outcome of the file of a name. One that isn't text names no file.
fn share_of_file(rt: &impl Files, name: &[u8]) -> Result<Share, Refusal>
    ensures { Fits result }
{
    let Ok(path) = str::from_utf8(name) else {
        return Err(Refusal::Text);
    };
    match File::open(rt, path) {
        Ok(mut file) => share_of_descriptor(&mut file),
        Err(_) => Err(Refusal::Text),
    }
}

// Prints an outcome and adds it to the totals.
fn count_outcome(
    rt: &impl Print,
    totals: Totals,
    outcome: Result<Share, Refusal>,
) -> io::Result<Totals>
    requires within { Within 10000 totals }
    requires fits { Fits outcome }
    ensures { IfOk result (λ t. t ≡ added totals outcome) }
{
    print_outcome(rt, outcome)?;
    Ok(add(totals, outcome))
}

// Does what is due, if anything.
fn act(
    rt: &(impl Files + Print),
    totals: Totals,
    turn: Option<Result<usize, Refusal>>,
    name: &[u8],
) -> io::Result<Totals>
    requires { Room turn totals }
    ensures { IfOk result (λ t. Acted turn totals t) }
{
    match turn {
        None => Ok(totals),
        Some(Ok(n)) => count_outcome(rt, totals, share_of_file(rt, first_of(name, n))),
        Some(Err(refusal)) => count_outcome(rt, totals, Err(refusal)),
    }
}

// Takes a byte of the input.
fn take(
    rt: &(impl Files + Print),
    season: Season,
    name: &mut [u8; NAME_BYTES],
    b: u8,
) -> io::Result<Season> {
    let names = season.names;
    let totals = season.totals;
    let step = take_byte(names, name, b);
    let next = step.names;
    let turn = step.turn;
    Ok(Season {
        names: next,
        totals: act(rt, totals, turn, name)?,
    })
}

// Takes a piece of the input.
fn take_piece(
    rt: &(impl Files + Print),
    season: Season,
    name: &mut [u8; NAME_BYTES],
    piece: &[u8],
) -> io::Result<Season> {
    let mut now = season;
    for &b in piece {
        now = take(rt, now, name, b)?;
    }
    Ok(now)
}

// Reads a piece of the input and takes it. A failed read ends the input, and so does the refusal of the project after the last.
fn take_some(
    rt: &(impl Files + Print),
    input: &mut impl Read,
    season: Season,
    name: &mut [u8; NAME_BYTES],
) -> io::Result<Taken> {
    let mut piece = [0u8; 4096];
    let n = read_some(input, &mut piece).unwrap_or(0);
    let next = take_piece(rt, season, name, &piece[..n])?;
    let names = next.names;
    Ok(Taken {
        season: next,
        more: 0 < n && !names.over,
    })
}

// Takes the whole input. A proved loop has to end, so it counts its turns, up to a number that no run reaches.
fn take_all(
    rt: &(impl Files + Print),
    input: &mut impl Read,
    season: Season,
    name: &mut [u8; NAME_BYTES],
) -> io::Result<Season> {
    let mut now = season;
    // turns are counted, so that it ends whatever is read
    for _ in 0..u64::MAX {
        let taken = take_some(rt, input, now, name)?;
        let next = taken.season;
        let more = taken.more;
        now = next;
        if !more {
            return Ok(now);
        }
    }
    Ok(now)
}

// Does what is due at the end of the input.
fn end(rt: &(impl Files + Print), season: Season, name: &[u8; NAME_BYTES]) -> io::Result<Totals> {
    let names = season.names;
    let totals = season.totals;
    if names.over {
        return Ok(totals);
    }
    let turn = finish(names);
    act(rt, totals, turn, name)
}

fn main(rt: HostRuntime) -> io::Result<()> {
    let mut name = [0u8; NAME_BYTES];
    let season = take_all(
        &rt,
        &mut rt.reader(),
        Season {
            names: begin(),
            totals: no_project(),
        },
        &mut name,
    )?;
    print_totals(&rt, end(&rt, season, &name)?)
}
