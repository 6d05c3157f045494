// Parts of what a program has read. Nothing is asked of the numbers.
#![tactic(auto)]

ghost use Rattle.std.specs.Prelude.{◌≡◌, ◌≤◌, length, take};
ghost use Rattle.parts.specs.Digits.{digits_from, behind_digits};
ghost use Rattle.parts.specs.Part.{part_of};

// The first n values, or all where there are fewer.
pub fn first_of<T>(values: &[T], n: usize) -> &[T]
    ensures { result.now ≡ take n values.now }
{
    values.get(..n).unwrap_or(values)
}

// The part of a text from one position to another, or all of it where there is none.
#[tactic(auto, unfolding(crate::specs::Part::part_of))]
pub fn part_of(text: &[u8], from: usize, to: usize) -> &[u8]
    ensures { result.now ≡ part_of text.now from to }
{
    text.get(from..to).unwrap_or(text)
}

// The number whose digits stand first in a text, 4294967295 where it is larger and 0 where there are none, and what stands behind them.
pub fn split_number(text: &[u8]) -> (u32, &[u8])
    ensures number { result.0 ≡ digits_from 0 text.now }
    ensures rest { result.1.now ≡ behind_digits text.now }
    ensures within { length result.1.now ≤ length text.now }
{
    let mut value: u32 = 0;
    let mut rest = text;
    // digits, as long as there are
    while let Some((digit, behind)) = rest.split_first() {
        if !digit.is_ascii_digit() {
            return (value, rest);
        }
        value = value
            .saturating_mul(10)
            .saturating_add(u32::from(*digit - b'0'));
        rest = behind;
    }
    (value, rest)
}
