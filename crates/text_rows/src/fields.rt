// A field at a position of a text.
ghost use Rattle.std.specs.Prelude.{◌≡◌, ◌≤◌, ◌<◌, length, drop};
ghost use Rattle.tables.specs.Project.{missing};
ghost use Rattle.form.specs.Parse.{further, front};
ghost use Rattle.text_rows.specs.inner.Steps.{Told, CellIs};

use tables::ModuleIdx;

// Reads the digits from `from` on, behind a number that is `first` so far: the value, and the position behind it. By hand, since a number
// from the mark on is refused here, where a parser of the library takes it.
fn further_digits(s: &[u8], from: usize, first: u64) -> Option<(u32, usize)>
    requires { (from ≤ length s.now) × (0 < first) × (first < missing) }
    ensures { Told s.now (further first (drop from s.now)) result }
{
    let mut v = first;
    for (k, b) in s[from..].iter().enumerate() {
        let d = *b as u64;
        if d < 48 || 57 < d {
            return Some((v as u32, from + k));
        }
        let n = v * 10 + (d - 48);
        if ModuleIdx::MISSING as u64 <= n {
            return None;
        }
        v = n;
    }
    Some((v as u32, s.len()))
}

// Reads the field at `at`: a number, or `-`.
fn read_field(s: &[u8], at: usize) -> Option<(u32, usize)>
    ensures { Told s.now (front (drop at s.now)) result }
{
    match *s.get(at)? {
        b'-' => Some((ModuleIdx::MISSING, at + 1)),
        b'0' => Some((0, at + 1)),
        b @ b'1'..=b'9' => further_digits(s, at + 1, b as u64 - 48),
        _ => None,
    }
}

// Reads the field at `at` and the byte behind it, which has to be `end`: the value, and the position behind that byte.
pub fn read_cell(s: &[u8], at: usize, end: u8) -> Option<(u32, usize)>
    requires { end < 48 }
    ensures { CellIs s.now at end result }
{
    let (v, i) = read_field(s, at)?;
    if *s.get(i)? != end {
        return None;
    }
    Some((v, i + 1))
}
