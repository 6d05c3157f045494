// Reading for the programs: into a slice as much as there is, and a project's text.
#![tactic(auto)]

ghost use Rattle.std.specs.Prelude.{◌≡◌, ◌≤◌, ◌<◌, length, take, IfOk};
ghost use Rattle.std.specs.Io.KnownBytes.{Consumes, IsAtEnd};
ghost use Rattle.streams.specs.Texts.{ReadsTable};

use listing::{TextSpace, read_text};
use std::io;
use std::io::Read;
use table::Table;
use tables::Refusal;

// How many bytes of a project's text are read: one more than it may have.
pub const TEXT_BYTES: usize = 65537;

// Reads until `out` is full or the input ends, and says how many bytes now stand at its front. They are the next ones of the input; fewer than
// there is room for only at its end.
pub fn read_full<R: Read>(input: &mut R, out: &mut [u8]) -> io::Result<usize>
    ensures bound { IfOk result (λ n. n ≤ length out.new) }
    ensures bytes { IfOk result (λ n. Consumes (R.remaining input.old) (R.remaining input.new) (take n out.new)) }
    ensures end { IfOk result (λ n. n < length out.new → IsAtEnd (R.remaining input.new)) }
{
    let mut n = 0;
    // a reader: how much each call reads isn't known before
    while n < out.len() {
        let more = input.read(&mut out[n..])?;
        if more == 0 {
            return Ok(n);
        }
        n += more;
    }
    Ok(n)
}

// Reads a project's text as a table.
pub fn read_table<'a, R: Read>(
    input: &mut R,
    text: &'a mut [u8; TEXT_BYTES],
    space: &'a mut TextSpace,
) -> io::Result<Result<Table<'a>, Refusal>>
    ensures { IfOk result (ReadsTable (R.remaining input.old) (R.remaining input.new)) }
{
    let n = read_full(input, text)?;
    Ok(read_text(&text[..n], space))
}
