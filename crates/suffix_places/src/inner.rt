// For crates above, on tested tables.
ghost use Rattle.std.specs.Prelude.{◌≡◌, ◌<◌, true, length};
ghost use Rattle.tables.specs.Accepted.{Below};
ghost use Rattle.expected_visit.specs.OfProject.{expected_of};
ghost use Rattle.suffix_rule.specs.inner.Suffix.{AllPlanned, Settled};
ghost use Rattle.suffix_places.specs.inner.Places.{Markings, Earlier, Small, Lowered, LoweredEntry, Lowest};

use current_columns::inner::Current;
use expected_order::inner::find_expected;
use table::MODULE_LIMIT;

// No place: more than a list of modules has.
pub const NEVER: u32 = 4097;

// The lesser of two, of which the second one counts only if it isn't 0.
fn earlier(least: u32, place: u32) -> u32
    ensures { Earlier least place result }
{
    if place == 0 { least } else { least.min(place) }
}

// Lowers what is noted of each sensitive member of an order to the least place of the sensitive members up to it. Orders and marks are slices here and below: these are of any.
fn lower_order(order: &[u32], sensitive: &[u32], placed: &[u32], asked: &mut [u32])
    requires members { Below (length asked.old) order.now }
    requires sensitive { length sensitive.now ≡ length asked.old }
    requires placed { length placed.now ≡ length asked.old }
    requires small { Small asked.old }
    ensures { Lowered order.now sensitive.now placed.now asked.old asked.new }
{
    let mut least = NEVER;
    for &member in order {
        let m = member as usize;
        if sensitive[m] == 0 {
            continue;
        }
        least = earlier(least, placed[m]);
        asked[m] = earlier(asked[m], least);
    }
}

// Whether every sensitive eligible member of an order is listed.
fn is_listed(order: &[u32], sensitive: &[u32], eligible: &[u32], placed: &[u32]) -> bool
    requires members { Below (length sensitive.now) order.now }
    requires eligible { length eligible.now ≡ length sensitive.now }
    requires placed { length placed.now ≡ length sensitive.now }
    ensures { result ≡ true → AllPlanned order.now sensitive.now eligible.now placed.now }
{
    // tried, the proof of `all` didn't close
    for &member in order {
        let m = member as usize;
        if sensitive[m] != 0 && eligible[m] != 0 && placed[m] == 0 {
            return false;
        }
    }
    true
}

// The same for the expected order of a module row of a table. Whether every sensitive eligible member is listed.
fn lower_entry(
    current: &Current,
    sensitive: &[u32],
    eligible: &[u32],
    placed: &[u32],
    asked: &mut [u32],
    root: u32,
) -> bool
    requires marks { Markings current.now sensitive.now eligible.now (length asked.old) }
    requires placed { length placed.now ≡ length asked.old }
    requires small { Small asked.old }
    requires root { root < length asked.old }
    ensures { LoweredEntry (expected_of current.now root) sensitive.now eligible.now placed.now asked.old asked.new result }
{
    let mut order = [0u32; MODULE_LIMIT];
    let order = find_expected(current, &mut order, root);
    lower_order(order, sensitive, placed, asked);
    is_listed(order, sensitive, eligible, placed)
}

// The same for several roots, of any roots and marks; a settled one, whose sensitive eligible members are all listed, isn't walked again.
pub fn lower_entries(
    current: &Current,
    roots: &[u32],
    sensitive: &[u32],
    eligible: &[u32],
    placed: &[u32],
    settled: &mut [u32],
    asked: &mut [u32],
)
    requires marks { Markings current.now sensitive.now eligible.now (length asked.old) }
    requires placed { length placed.now ≡ length asked.old }
    requires small { Small asked.old }
    requires roots { Below (length asked.old) roots.now }
    requires size { length settled.old ≡ length roots.now }
    requires settled { Settled current.now roots.now sensitive.now eligible.now settled.old placed.now }
    ensures { Lowest current.now roots.now sensitive.now eligible.now placed.now asked.old settled.new asked.new }
{
    for (k, &root) in roots.iter().enumerate() {
        if settled[k] != 0 {
            continue;
        }
        if !lower_entry(current, sensitive, eligible, placed, asked, root) {
            continue;
        }
        settled[k] = 1;
    }
}
