// For crates above: a result line, written into a slice of bytes.
ghost use Rattle.std.specs.Prelude.{◌≡◌, [], ◌∷◌, ◌+◌, ◌≤◌, ◌<◌, length};
ghost use Rattle.form.specs.Form.{number, field, spaced};
ghost use Rattle.lines.specs.Lines.{RoomIs, PutAt};
ghost use Rattle.lines.specs.Writing.{Room, Put};

use tables::ModuleIdx;

// How many digits n has.
#[tactic(auto, using(crate::proofs::Printing::sizes))]
pub fn number_len(n: u32) -> usize
    ensures { result ≡ length (number n) }
{
    match n.checked_ilog10() {
        Some(k) => k as usize + 1,
        None => 1,
    }
}

// How many bytes the field of v has.
#[tactic(auto, using(crate::proofs::Printing::field_cases))]
fn field_len(v: u32) -> usize
    ensures { result ≡ length (field v) }
{
    if v == ModuleIdx::MISSING {
        return 1;
    }
    number_len(v)
}

// What is left of `room` bytes behind the numbers, each with a space before it.
pub fn room_after(room: usize, numbers: &[u32]) -> Option<usize>
    ensures { RoomIs room numbers.now result }
{
    let mut left = room;
    for n in numbers {
        let k = field_len(*n);
        if left <= k {
            return None;
        }
        left -= k + 1;
    }
    Some(left)
}

fn digit(d: u32) -> u8
    requires { d < 10 }
    ensures { result ≡ 48 + d }
{
    48 + d as u8
}

// Writes n in decimal from `at` on, and answers the position behind it. By hand: `Display` makes a `String`, there is no heap here, and no crate but the library. The slice and the place
// are handed on: tried, a method of the writer below that calls itself, and a line took 1.3 times as long.
fn put_digits(out: &mut [u8], at: usize, n: u32) -> usize
    requires { at + length (number n) ≤ length out.old }
    ensures { PutAt out.old at (number n) out.new result }
{
    if n < 10 {
        out[at] = digit(n);
        return at + 1;
    }
    let p = put_digits(out, at, n / 10);
    out[p] = digit(n % 10);
    p + 1
}

// A slice that is written from its front on: `at` is where the next byte goes.
#[derive(Drop)]
pub struct Writer<'a> {
    out: &'a mut [u8],
    at: usize,
}

impl<'a> Writer<'a> {
    // Nothing is written yet.
    pub fn new(out: &'a mut [u8]) -> Writer<'a>
        ensures slice { result.out.ghost_name ≡ out.entry.ghost_name }
        ensures start { (result.at ≡ 0) × (result.out.now ≡ out.old) }
    {
        Writer { out, at: 0 }
    }

    // How many bytes are written.
    pub fn len(&self) -> usize
        ensures { result ≡ self.now.at }
    {
        self.at
    }

    pub fn put_byte(&mut self, b: u8)
        requires { Room 1 self.old }
        ensures { Put (b ∷ []) self.old self.new }
    {
        self.out[self.at] = b;
        self.at += 1;
    }

    pub fn put_bytes(&mut self, word: &[u8])
        requires { Room (length word.now) self.old }
        ensures { Put word.now self.old self.new }
    {
        let end = self.at + word.len();
        self.out[self.at..end].copy_from_slice(word);
        self.at = end;
    }

    // In decimal.
    pub fn put_number(&mut self, n: u32)
        requires { Room (length (number n)) self.old }
        ensures { Put (number n) self.old self.new }
    {
        self.at = put_digits(self.out, self.at, n);
    }

    // As a field: `-` for the missing mark.
    #[tactic(auto, using(crate::proofs::Printing::field_cases))]
    fn put_field(&mut self, v: u32)
        requires { Room (length (field v)) self.old }
        ensures { Put (field v) self.old self.new }
    {
        if v == ModuleIdx::MISSING {
            self.put_byte(b'-');
            return;
        }
        self.put_number(v);
    }

    // Each number with a space before it.
    pub fn put_fields(&mut self, numbers: &[u32])
        requires { Room (length (spaced numbers.now)) self.old }
        ensures { Put (spaced numbers.now) self.old self.new }
    {
        for n in numbers {
            self.put_byte(b' ');
            self.put_field(*n);
        }
    }
}
