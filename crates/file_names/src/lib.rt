// The file names on standard input, a name a line, read byte by byte.
#![tactic(auto)]

ghost use Rattle.std.specs.Prelude.{◌≡◌, cond, ◌+◌, ltb};
ghost use Rattle.file_names.specs.Steps.{begun, turn_of_line, turn_at, names_after, kept_after, stepped, finished};

use tables::Refusal;

// How many names are taken.
pub const NAMES: u32 = 10000;

// How many bytes a name has at most.
pub const NAME_BYTES: usize = 255;

// What is known of an input: how many lines may still come, how many bytes the line at hand has so far (256 stands for any greater count),
// whether one of them is 0, and whether a byte followed the last line that may come. The last is no Option of `left`: both are 0 and false at the end of a full input too.
#[derive(Clone, Copy)]
pub struct Names {
    pub left: u32,
    pub length: usize,
    pub zero: bool,
    pub over: bool,
}

// What is known after a byte, and what it makes due, if anything: the file whose name is that many of the bytes kept, or a refusal.
#[derive(Clone, Copy)]
pub struct Step {
    pub names: Names,
    pub turn: Option<Result<usize, Refusal>>,
}

// Before the first byte.
pub fn begin() -> Names
    ensures { result ≡ begun }
{
    Names {
        left: NAMES,
        length: 0,
        zero: false,
        over: false,
    }
}

// What is due at the end of the line at hand.
#[tactic(auto, unfolding(crate::specs::Steps::turn_of_line))]
fn turn_of_line(names: Names) -> Result<usize, Refusal>
    ensures { result ≡ turn_of_line names }
{
    let length = names.length;
    if names.zero || length == 0 || NAME_BYTES < length {
        return Err(Refusal::Text);
    }
    Ok(length)
}

// What is due at a byte.
#[tactic(auto, unfolding(crate::specs::Steps::turn_at))]
fn turn_at(names: Names, b: u8) -> Option<Result<usize, Refusal>>
    ensures { result ≡ turn_at names b }
{
    if names.over {
        return None;
    }
    if names.left == 0 {
        return Some(Err(Refusal::PastSeason));
    }
    if b == b'\n' {
        return Some(turn_of_line(names));
    }
    None
}

// The length of a line with a byte more.
fn longer(length: usize) -> usize
    ensures { result ≡ cond (ltb 255 length) length (length + 1) }
{
    if length <= NAME_BYTES {
        return length + 1;
    }
    length
}

// What is known after a byte.
#[tactic(auto, unfolding(crate::specs::Steps::names_after))]
fn names_after(names: Names, b: u8) -> Names
    ensures { result ≡ names_after names b }
{
    let left = names.left;
    let length = names.length;
    if names.over {
        return names;
    }
    if left == 0 {
        return Names {
            left: 0,
            length: 0,
            zero: false,
            over: true,
        };
    }
    if b == b'\n' {
        return Names {
            left: left - 1,
            length: 0,
            zero: false,
            over: false,
        };
    }
    Names {
        left: left,
        length: longer(length),
        zero: names.zero | (b == 0),
        over: false,
    }
}

// Keeps a byte of a line, where a name has a place for it.
#[tactic(auto, unfolding(crate::specs::Steps::kept_after))]
fn keep_byte(names: Names, name: &mut [u8; NAME_BYTES], b: u8)
    ensures { name.new ≡ kept_after names b name.old }
{
    let length = names.length;
    if b == b'\n' {
        return;
    }
    if length < NAME_BYTES {
        name[length] = b;
    }
}

// Takes the next byte. The bytes of the line at hand are kept in `name`, as far as they fit.
#[tactic(auto, unfolding(crate::specs::Steps::stepped))]
pub fn take_byte(names: Names, name: &mut [u8; NAME_BYTES], b: u8) -> Step
    ensures value { result ≡ stepped names b }
    ensures name_after { name.new ≡ kept_after names b name.old }
{
    keep_byte(names, name, b);
    Step {
        names: names_after(names, b),
        turn: turn_at(names, b),
    }
}

// What is due at the end of the input: a last line without its LF.
#[tactic(auto, unfolding(crate::specs::Steps::finished))]
pub fn finish(names: Names) -> Option<Result<usize, Refusal>>
    ensures { result ≡ finished names }
{
    if names.length == 0 {
        return None;
    }
    Some(turn_of_line(names))
}
