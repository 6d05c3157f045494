// For crates above: a line of the workshop page, written into a slice of bytes. A place is given from 1, 0 where there is none.
ghost use Rattle.std.specs.Prelude.{◌≡◌, ◌<◌, ◌≤◌, replicate, pos, ◌-ℤ◌, if◌then◌else◌, unsigned_abs};
ghost use Rattle.form.specs.Form.{bytes, number};
ghost use Rattle.lines.specs.Writing.{Room, Put};
ghost use Rattle.page_lines.specs.Line.{right, signed, place_by, shift_by, line_by};

use lines::lines::{Writer, number_len};

// By how much an actual place comes after an expected one.
fn shift(actual: u32, expected: u32) -> i32
    requires { (actual < 4096) × (expected < 4096) }
    ensures { result ≡ pos actual -ℤ pos expected }
{
    (actual as i32) - (expected as i32)
}

// Writes k spaces.
fn put_spaces(line: &mut Writer, k: usize)
    requires { (k ≤ 8) × Room k line.old }
    ensures { Put (replicate k 32) line.old line.new }
{
    let spaces = [32u8; 8];
    line.put_bytes(&spaces[..k]);
}

// Writes n, right-aligned in 8.
fn put_number_right(line: &mut Writer, n: u32)
    requires { (n < 10000) × Room 8 line.old }
    ensures { Put (right (number n)) line.old line.new }
{
    let k = number_len(n);
    put_spaces(line, 8 - k);
    line.put_number(n);
}

// Writes `-`, right-aligned in 8.
fn put_none(line: &mut Writer)
    requires { Room 8 line.old }
    ensures { Put (right (bytes "-")) line.old line.new }
{
    put_spaces(line, 7);
    line.put_byte(b'-');
}

// Writes a place counted from 1, 0 for none, as the sheet's slices hold them.
fn put_place(line: &mut Writer, place: u32)
    requires { (place ≤ 4096) × Room 8 line.old }
    ensures { Put (right (place_by place)) line.old line.new }
{
    if place == 0 {
        put_none(line);
    } else {
        put_number_right(line, place - 1);
    }
}

// Writes a shift, with a minus sign where it is negative.
fn put_signed(line: &mut Writer, d: i32)
    requires { (unsigned_abs d < 4096) × Room 8 line.old }
    ensures { Put (right (signed d)) line.old line.new }
{
    let n = d.unsigned_abs();
    if d < 0 {
        let k = number_len(n);
        put_spaces(line, 7 - k);
        line.put_byte(b'-');
        line.put_number(n);
    } else {
        put_number_right(line, n);
    }
}

// Writes the shift of two places.
fn put_shift(line: &mut Writer, expected: u32, actual: u32)
    requires { (expected ≤ 4096) × (actual ≤ 4096) × Room 8 line.old }
    ensures { Put (right (shift_by expected actual)) line.old line.new }
{
    if expected == 0 || actual == 0 {
        put_none(line);
    } else {
        put_signed(line, shift(actual - 1, expected - 1));
    }
}

// Writes whether a module is planned.
fn put_planned(line: &mut Writer, planned: bool)
    requires { Room 3 line.old }
    ensures { Put (if planned then bytes "yes" else bytes " no") line.old line.new }
{
    let word = if planned { b"yes" } else { b" no" };
    line.put_bytes(word);
}

// Writes the line of a module.
pub fn put_page_line(line: &mut Writer, m: u32, expected: u32, actual: u32, planned: bool)
    requires { (m < 4096) × (expected ≤ 4096) × (actual ≤ 4096) × Room 41 line.old }
    ensures { Put (line_by m expected actual planned) line.old line.new }
{
    put_number_right(line, m);
    put_place(line, expected);
    put_place(line, actual);
    put_shift(line, expected, actual);
    put_spaces(line, 5);
    put_planned(line, planned);
    line.put_byte(b'\n');
}
