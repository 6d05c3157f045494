// For crates above, on tested names. A name is told by where its line starts.
ghost use Rattle.std.specs.Prelude.{◌≡◌, ◌+◌, ◌≤◌, ◌==◌, ◌&&◌, true, not, length, slice_index_or};
ghost use Rattle.std.specs.List.{take_while, list_any};
ghost use Rattle.std.specs.Str.{bytes_eq};
ghost use Rattle.names.specs.Names.{names_fit, start_byte, turned};
ghost use Rattle.name_order.specs.Sooner.{sooner, begins};
ghost use Rattle.name_order.specs.Runtime.{is_runtime};
ghost use Rattle.name_order.specs.inner.Lines.{first_line, line_at, Starts};

// The byte at a place, an LF past the end.
fn byte_at(names: &[u8], at: usize) -> u8
    ensures { result ≡ slice_index_or names.now at 10 }
{
    names.get(at).copied().unwrap_or(10)
}

// How long the line is with which a text begins.
fn line_length(text: &[u8]) -> usize
    ensures { result ≡ length (take_while (λ b. not (b == 10)) text.now) }
{
    text.iter().take_while(|b| **b != 10).count()
}

// Finds where each name starts.
pub fn find_starts(names: &[u8], starts: &mut [usize])
    requires { names_fit (length starts.old) names.now ≡ true }
    ensures { Starts names.now starts.new }
{
    let mut at = 0;
    for start in starts {
        *start = at;
        at += line_length(&names[at..]) + 1;
    }
}

// Whether the line with which one text begins goes before that of another, byte by byte. By hand, since slices have an order past the LF too.
fn line_before(text: &[u8], other: &[u8]) -> bool
    ensures { result ≡ sooner (first_line text.now) (first_line other.now) }
{
    for (i, x) in text.iter().enumerate() {
        let y = byte_at(other, i);
        if y == 10 {
            return false;
        }
        if *x == 10 {
            return true;
        }
        if *x != y {
            return *x < y;
        }
    }
    byte_at(other, text.len()) != 10
}

// Whether two runs of bytes are the same, with no LF.
fn same_run(run: &[u8; 8], other: &[u8; 8]) -> bool
    ensures { result ≡ bytes_eq run.now other.now && not (list_any (λ b. b == 10) run.now) }
{
    run == other && !run.contains(&10)
}

// How many bytes two texts begin with alike, counted by eights, before an LF.
fn same_length(text: &[u8], other: &[u8]) -> usize
    ensures within { (result ≤ length text.now) × (result ≤ length other.now) }
    ensures left { sooner (line_at text.now result) (line_at other.now result) ≡ sooner (first_line text.now) (first_line other.now) }
{
    let (runs, _) = text.as_chunks::<8>();
    let (others, _) = other.as_chunks::<8>();
    let mut same = 0;
    for (x, y) in runs.iter().zip(others) {
        if !same_run(x, y) {
            return same;
        }
        same += 8;
    }
    same
}

// The same as `line_before`, which is left with few bytes where both lines begin alike for long. Out of line, so that lines that differ soon cost no call.
#[inline(never)]
fn long_before(text: &[u8], other: &[u8]) -> bool
    ensures { result ≡ sooner (first_line text.now) (first_line other.now) }
{
    let same = same_length(text, other);
    line_before(&text[same..], &other[same..])
}

// The same as `line_before`, by eights where both texts begin with the same eight bytes, all of the line.
fn rest_before(text: &[u8], other: &[u8]) -> bool
    ensures { result ≡ sooner (first_line text.now) (first_line other.now) }
{
    if let (Some(x), Some(y)) = (text.first_chunk::<8>(), other.first_chunk::<8>()) {
        if same_run(x, y) {
            return long_before(text, other);
        }
    }
    line_before(text, other)
}

// The first byte of a name, from that of its line.
fn turn(b: u8) -> u8
    ensures { result ≡ start_byte b }
{
    if b == 126 { 0 } else { b }
}

// Whether the name at one place goes before that at another.
pub fn name_before(names: &[u8], a: usize, b: usize) -> bool
    ensures { result ≡ sooner (turned (line_at names.now a)) (turned (line_at names.now b)) }
{
    if a == b {
        return false;
    }
    let x = byte_at(names, a);
    let y = byte_at(names, b);
    if y == 10 {
        return false;
    }
    if x == 10 {
        return true;
    }
    let first = turn(x);
    let other = turn(y);
    if first != other {
        return first < other;
    }
    rest_before(&names[a + 1..], &names[b + 1..])
}

// Whether the line at a place begins with a word.
fn line_begins(names: &[u8], at: usize, word: &[u8]) -> bool
    ensures { result ≡ begins word.now (line_at names.now at) }
{
    for (k, w) in word.iter().enumerate() {
        let b = byte_at(names, at + k);
        if b == 10 || b != *w {
            return false;
        }
    }
    true
}

const PREFIX: [u8; 9] = *b"rolldown:";

const FOLDER: [u8; 9] = *b"rolldown/";

// Whether the name at a place is one of rolldown's own.
pub fn is_runtime(names: &[u8], at: usize) -> bool
    ensures { result ≡ is_runtime (turned (line_at names.now at)) }
{
    let b = byte_at(names, at);
    if b == 10 {
        return false;
    }
    if turn(b) == 0 {
        return line_begins(names, at + 1, &FOLDER);
    }
    line_begins(names, at, &PREFIX)
}
