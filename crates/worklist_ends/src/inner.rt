// For crates above, on tested tables.
ghost use Rattle.std.specs.Prelude.{◌≡◌, ℕ, ◌≤◌, length, slice_index};
ghost use Rattle.lists.specs.Words.{has, marks_of};
ghost use Rattle.tables.specs.Accepted.{Below};
ghost use Rattle.tables.specs.Refusal.{module_limit};
ghost use Rattle.request_queue.specs.inner.Growing.{Grown, given, chosen};
ghost use Rattle.request_queue.specs.inner.Lent.{listing, Kept};
ghost use Rattle.worklist_ends.specs.inner.Ends.{ListWritten};

use request_queue::inner::Queue;

// Lists the eligible seeds.
pub fn list_seeds(seeds: &[u32], eligible: &[u32], list: &mut Queue)
    requires seeds { Below (length eligible.now) seeds.now }
    requires eligible { length (listing list.old).marks ≡ length eligible.now }
    ensures kept { Kept list.old list.new }
    ensures grown { Grown (given (chosen eligible.now) seeds.now) (listing list.old) (listing list.new) }
{
    for &m in seeds {
        // named, so that no answer of the proof names the test
        let ineligible = eligible[m as usize] == 0;
        if ineligible {
            continue;
        }
        list.push(m);
    }
}

// Makes the places of a list marks.
pub fn mark_listed(placed: &mut [u32])
    ensures { placed.new ≡ marks_of (has placed.old) (length placed.old) }
{
    for place in placed.iter_mut() {
        *place = u32::from(*place != 0);
    }
}

// Writes the list that has these places.
pub fn write_listed(placed: &[u32], list: &mut [u32])
    requires few { length placed.now ≤ module_limit }
    requires room { (m : ℕ) → slice_index placed.now m ≤ length list.old }
    ensures { ListWritten placed.now list.old list.new }
{
    for (m, &end) in placed.iter().enumerate() {
        if end == 0 {
            continue;
        }
        list[end as usize - 1] = m as u32;
    }
}
