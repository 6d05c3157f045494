// For crates above, on tested names.
ghost use Rattle.std.specs.Prelude.{◌≡◌};
ghost use mathlib.Core.List.{foldl};
ghost use Rattle.names.specs.Names.{printable, line_ends};
ghost use Rattle.names.specs.inner.Lines.{width_after};

fn is_printable(b: u8) -> bool
    ensures { result ≡ printable b }
{
    (33..=126).contains(&b)
}

// The length of the line at hand after a byte, from that before it; 65 once something is wrong, so that a fold carries one number and has no branch for none.
fn width_after(width: usize, b: u8) -> usize
    ensures { result ≡ width_after width b }
{
    if 64 < width {
        return 65;
    }
    if b == 10 {
        return if width == 0 { 65 } else { 0 };
    }
    if is_printable(b) { width + 1 } else { 65 }
}

// The length of the line behind the last LF, which is 0 where every line is a name; 65 or more where one isn't.
pub fn last_width(names: &[u8]) -> usize
    ensures { result ≡ foldl width_after 0 names.now }
{
    names.iter().fold(0, |width, b| width_after(width, *b))
}

// How many lines end: a count of bytes, where `lists` counts marks and `component_labels` labels, each by its own test.
#[tactic(auto, using(crate::proofs::Lines::ends_counted))]
pub fn count_lines(names: &[u8]) -> usize
    ensures { result ≡ line_ends names.now }
{
    let mut lines = 0;
    for b in names {
        if *b == 10 {
            lines += 1;
        }
    }
    lines
}
