// Loops over one slice, and a copy, for crates above.
ghost use Rattle.std.specs.Prelude.{◌≡◌, length, replicate};
ghost use Rattle.lists.specs.Words.{ones};

// Fills a slice with a value. The library's method promises it turn by turn; callers have it as one equation, proved here once.
pub fn fill(slots: &mut [u32], value: u32)
    ensures { slots.new ≡ replicate (length slots.old) value }
{
    slots.fill(value);
}

// Copies a slice over another of its length. By a loop, since the library's method asks a controller's system for `memmove` where the compiler doesn't see
// that the two are apart, as out of a record.
pub fn copy_over(source: &[u32], target: &mut [u32])
    requires { length target.old ≡ length source.now }
    ensures { target.new ≡ source.now }
{
    for (place, value) in source.iter().enumerate() {
        target[place] = *value;
    }
}

// How many marks are not 0. Tried, slower: a chain that ends in `count`.
pub fn count_marked(marks: &[u32]) -> usize
    ensures { result ≡ ones marks.now }
{
    let mut count = 0;
    for mark in marks {
        if *mark != 0 {
            count += 1;
        }
    }
    count
}
