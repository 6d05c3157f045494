// For crates above, on texts of at most 65,536 bytes: the rows of a list, a list, and all lists of a text.
ghost use Rattle.std.specs.Prelude.{◌≡◌, ◌+◌, ◌*◌, ◌≤◌, ◌<◌, [], length, get_or};
ghost use Rattle.text_rows.specs.inner.Cells.{ender, following, head, heads, starts_of, name_lines, widths};
ghost use Rattle.text_rows.specs.inner.Steps.{RowsIs, LineIs, ListIs, Room, RoomAfter, start_of_text, Steps};

use crate::fields::read_cell;

// How many columns each list has.
const WIDTHS: [usize; 15] = [2, 8, 3, 2, 2, 2, 2, 2, 3, 2, 1, 2, 2, 2, 1];

pub fn width(l: usize) -> usize
    requires { l < 15 }
    ensures { result ≡ get_or widths l 0 }
{
    WIDTHS[l]
}

// Where a reading stands: the position in the text, and how many values are read. No slice that gets shorter says the second.
#[derive(Clone, Copy)]
pub struct Cursor {
    pub at: usize,
    pub count: usize,
}

// The byte behind a field with `left` more fields behind it in its row.
#[tactic(auto, unfolding(crate::specs::inner::Cells::ender))]
fn end_of(left: usize) -> u8
    ensures { (result ≡ ender left) × (result < 48) }
{
    if left == 0 { 10 } else { 32 }
}

#[tactic(auto, unfolding(crate::specs::inner::Cells::following))]
fn next_left(last: usize, left: usize) -> usize
    ensures { result ≡ following last left }
{
    if left == 0 { last } else { left - 1 }
}

// Reads the rows of a list of `last + 1` columns from `at` on, up to its empty line, and puts the values into out, row by row, from
// `from` on.
fn read_rows(
    s: &[u8],
    at: usize,
    last: usize,
    out: &mut [u32; 32768],
    from: usize,
) -> Option<Cursor>
    requires { (at ≤ length s.now) × (length s.now + 2 * from ≤ at + 65536) }
    ensures { RowsIs s.now at last out.old from out.new result }
{
    let mut i = at;
    let mut k = from;
    let mut left = last;
    // a reader: each field says where the next begins
    while let Some((v, next)) = read_cell(s, i, end_of(left)) {
        out[k] = v;
        k += 1;
        i = next;
        left = next_left(last, left);
    }
    if left != last || *s.get(i)? != 10 {
        return None;
    }
    Some(Cursor {
        at: i + 1,
        count: k,
    })
}

// The position behind `name` and a line end, where these stand at `at`.
pub fn match_line(s: &[u8], at: usize, name: &[u8]) -> Option<usize>
    requires { at ≤ length s.now }
    ensures { LineIs s.now at name.now result }
{
    let rest = s[at..].strip_prefix(name)?;
    if *rest.first()? != 10 {
        return None;
    }
    Some(at + name.len() + 1)
}

// Reads one list more.
fn read_list(
    s: &[u8],
    c: Cursor,
    name: &[u8],
    last: usize,
    out: &mut [u32; 32768],
) -> Option<Cursor>
    requires { Room s.now c }
    ensures { ListIs s.now (head name.now last) out.old out.new c result × RoomAfter s.now result }
{
    let next = match_line(s, c.at, name)?;
    read_rows(s, next, last, out, c.count)
}

// The lines of names of a project's lists.
const NAMES: [u8; 262] = *b"\
runtime dynamic\n\
normal included sensitive reads exports wrap chunk newer\n\
module kind target\n\
module dependency\n\
module included\n\
statement record\n\
owner canonical\n\
symbol link\n\
statement form symbol\n\
reference depended\n\
order\n\
chunk member\n\
chunk imports\n\
entry chunk\n\
seed\n";

// Where each begins, and where the last ends.
const STARTS: [usize; 16] = [
    0, 16, 73, 92, 110, 126, 143, 159, 171, 193, 212, 218, 231, 245, 257, 262,
];

#[tactic(auto, unfolding(crate::specs::inner::Cells::starts_of))]
fn start(l: usize) -> usize
    requires { l < 16 }
    ensures { result ≡ get_or (starts_of 0 heads) l 0 }
{
    STARTS[l]
}

// The l-th line of names, without its line end.
fn name_at<'a>(lines: &'a [u8], l: usize) -> &'a [u8]
    requires { (lines.now ≡ name_lines heads) × (l < 15) }
    ensures { result.now ≡ (get_or heads l (head [] 0)).name }
{
    &lines[start(l)..start(l + 1) - 1]
}

// Reads every list of a project, with these lines of names, from the text's start.
fn read_each(
    s: &[u8],
    lines: &[u8],
    out: &mut [u32; 32768],
    ends: &mut [usize; 15],
) -> Option<Cursor>
    requires { (length s.now ≤ 65536) × (lines.now ≡ name_lines heads) }
    ensures { Steps s.now heads out.old out.new ends.old ends.new 0 start_of_text result }
{
    let mut c = Cursor { at: 0, count: 0 };
    for (l, end) in ends.iter_mut().enumerate() {
        c = read_list(s, c, name_at(lines, l), width(l) - 1, out)?;
        *end = c.count;
    }
    Some(c)
}

// Reads every list of a project from the text's start.
pub fn read_lists(s: &[u8], out: &mut [u32; 32768], ends: &mut [usize; 15]) -> Option<Cursor>
    requires { length s.now ≤ 65536 }
    ensures { Steps s.now heads out.old out.new ends.old ends.new 0 start_of_text result }
{
    read_each(s, &NAMES, out, ends)
}
