// Writing to a slice that may be too short: what has no place is left out.
ghost use Rattle.std.specs.Prelude.{◌≡◌, ◌+◌, ◌≤◌, length, drop, slice_set};
ghost use Rattle.std.proofs.lemmas.List.Edits.{sets};
ghost use Rattle.circle_search.specs.Circles.{from};

// The place of the first m, or the end if there is none, so that the slice from there is empty then.
pub fn place_of(begun: &[u32], m: u32) -> usize
    ensures { (result ≤ length begun.now) × (drop result begun.now ≡ from m begun.now) }
{
    for (i, b) in begun.iter().enumerate() {
        if *b == m {
            return i;
        }
    }
    begun.len()
}

// Writes a value, if there is a place for it.
pub fn put_at(slots: &mut [u32], at: usize, value: u32)
    ensures { slots.new ≡ slice_set slots.old at value }
{
    if at < slots.len() {
        slots[at] = value;
    }
}

// Writes a list from a place on, as far as there are places.
pub fn put_all(source: &[u32], slots: &mut [u32], at: usize)
    requires { at + length source.now ≤ 9223372036854775807 }
    ensures { slots.new ≡ sets slots.old at source.now }
{
    for (i, value) in source.iter().enumerate() {
        put_at(slots, at + i, *value);
    }
}
