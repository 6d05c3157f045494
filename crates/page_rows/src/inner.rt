// For crates above: the modules of a page and their places, over the two sensitive orders of an entry. A place is written from 1, 0 where there is none.
ghost use Rattle.std.specs.Prelude.{◌≡◌, ◌≤◌, length, replicate};
ghost use Rattle.lists.specs.Words.{keep, has, marks_of};
ghost use Rattle.tables.specs.Refusal.{module_limit};
ghost use Rattle.risk_of_orders.specs.inner.Steps.{Ranked, Order};
ghost use Rattle.page_rows.specs.inner.Steps.{unplaced, Listed, Members, Laid};

use table::MODULE_LIMIT;

// Lists the members of an order that are marked, from place 0. How many there are: counted beside the slice, as those kept and zipped with its slots would be counted
// by a second pass.
pub fn keep_marked(order: &[u32], marks: &[u32], kept: &mut [u32]) -> usize
    requires members { Members order.now (length marks.now) }
    requires room { length (keep (has marks.now) order.now) ≤ length kept.old }
    ensures { Listed (keep (has marks.now) order.now) kept.old kept.new result }
{
    let mut count = 0;
    for m in order {
        if marks[*m as usize] != 0 {
            kept[count] = *m;
            count += 1;
        }
    }
    count
}

// Writes the place of each member of an order, from 1.
fn place_members(order: &[u32], places: &mut [u32])
    requires members { Order order.now (length places.old) }
    requires zeroed { places.old ≡ replicate (length places.old) 0 }
    ensures { Ranked order.now places.new }
{
    for (k, m) in order.iter().enumerate() {
        places[*m as usize] = k as u32 + 1;
    }
}

// Marks the modules without a place.
fn mark_unplaced(places: &[u32], marks: &mut [u32])
    requires rows { length places.now ≡ length marks.old }
    ensures { marks.new ≡ marks_of (unplaced places.now) (length marks.old) }
{
    for (m, mark) in marks.iter_mut().enumerate() {
        *mark = (places[m] == 0) as u32;
    }
}

// Lists the members of an order that have no place. How many there are.
fn list_unplaced(order: &[u32], places: &[u32], kept: &mut [u32]) -> usize
    requires members { Members order.now (length places.now) }
    requires few { length places.now ≤ module_limit }
    requires room { length (keep (unplaced places.now) order.now) ≤ length kept.old }
    ensures { Listed (keep (unplaced places.now) order.now) kept.old kept.new result }
{
    let n = places.len();
    let mut left = [0u32; MODULE_LIMIT];
    let left = &mut left[..n];
    mark_unplaced(places, left);
    keep_marked(order, left, kept)
}

// Writes the places in both sensitive orders of an entry, and lists the members of the actual one that have no expected place. How many there are.
pub fn lay_out(
    expected: &[u32],
    actual: &[u32],
    expected_places: &mut [u32],
    actual_places: &mut [u32],
    others: &mut [u32],
) -> usize
    requires orders { Order expected.now (length expected_places.old) × Order actual.now (length expected_places.old) }
    requires zeroed { (expected_places.old ≡ replicate (length expected_places.old) 0) × (actual_places.old ≡ replicate (length expected_places.old) 0) }
    requires few { length expected_places.old ≤ module_limit }
    requires room { length actual.now ≤ length others.old }
    ensures { Laid expected.now actual.now expected_places.new actual_places.new others.new result }
{
    place_members(expected, expected_places);
    place_members(actual, actual_places);
    list_unplaced(actual, expected_places, others)
}
