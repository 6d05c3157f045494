// The writer of a result line, and the list of a set's members.
#![tactic(auto)]

ghost use Rattle.std.specs.Prelude.{◌≡◌, length};
ghost use Rattle.tables.specs.Answers.{answer, after};
ghost use Rattle.lines.specs.Lines.{line_of, line_refusal, members, members_refusal};

pub mod lines;

use lines::{Writer, room_after};
use tables::{ModuleIdx, Refusal};

// Writes a result line from place 0: its word, the entry's number where it is an entry's line, the numbers.
pub fn put_line(
    out: &mut [u8],
    word: &[u8],
    entry: &[u32],
    numbers: &[u32],
) -> Result<usize, Refusal>
    ensures value { result ≡ answer (line_refusal out.old (line_of word.now entry.now numbers.now)) (length (line_of word.now entry.now numbers.now)) }
    ensures out_after { out.new ≡ after (line_refusal out.old (line_of word.now entry.now numbers.now)) out.old (line_of word.now entry.now numbers.now) }
{
    if out.len() <= word.len() {
        return Err(Refusal::ShortSlice);
    }
    let behind_word = room_after(out.len() - word.len() - 1, entry);
    let Some(room) = behind_word else {
        return Err(Refusal::ShortSlice);
    };
    let behind_all = room_after(room, numbers);
    let Some(_) = behind_all else {
        return Err(Refusal::ShortSlice);
    };
    let mut line = Writer::new(out);
    line.put_bytes(word);
    line.put_fields(entry);
    line.put_fields(numbers);
    line.put_byte(b'\n');
    Ok(line.len())
}

// Lists the members of a set of marks, rising, from place 0. `n` is counted beside the slice: the marked places zipped with its slots would be counted by a second pass.
#[tactic(auto, using(crate::proofs::Members::no_member))]
pub fn rising(marks: &[u32], out: &mut [u32]) -> Result<usize, Refusal>
    ensures value { result ≡ answer (members_refusal marks.now out.old) (length (members marks.now)) }
    ensures out_after { out.new ≡ after (members_refusal marks.now out.old) out.old (members marks.now) }
{
    if ModuleIdx::LARGEST as usize + 1 < marks.len() {
        return Err(Refusal::ListSize);
    }
    if out.len() < marks.len() {
        return Err(Refusal::ShortSlice);
    }
    let mut n = 0;
    for (i, mark) in marks.iter().enumerate() {
        if *mark == 0 {
            continue;
        }
        out[n] = i as u32;
        n += 1;
    }
    Ok(n)
}
