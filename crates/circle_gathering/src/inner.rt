// For crates above, on columns that fit.
ghost use Rattle.std.specs.Prelude.{◌≡◌, ◌<◌, ◌≤◌, ◌∷◌, length};
ghost use mathlib.Core.List.{foldl};
ghost use Rattle.tables.specs.Readings.{modules};
ghost use Rattle.tables.specs.Accepted.{Below};
ghost use Rattle.sort_visit.specs.Visit.{Fit};
ghost use Rattle.sort_modules.specs.Sort.{statics_of};
ghost use Rattle.circle_search.specs.Circles.{circles};
ghost use Rattle.circle_search.specs.inner.Search.{Searches};
ghost use Rattle.circle_visit.specs.Visit.{listed, write, led_by, held, Leads};
ghost use Rattle.circle_gathering.specs.Gathering.{Gathered};
ghost use Rattle.circle_gathering.specs.inner.Searching.{Searched};

use circle_rows::inner::lead_rows;
use circle_visit::inner::{Found, meet};
use current_columns::inner::Columns;
use table::{MODULE_LIMIT, ROW_LIMIT};
use tables::Refusal;
use tables::inner::first_rows;

// Meets the runtime and then the entries in row order. Paths and lengths are two lent slices of the operation, of no set length, so no fact joins them.
#[tactic(auto, unfolding(current_columns::specs::AsProject::project))]
fn meet_roots(
    columns: &Columns,
    starts: &[u32],
    led: &[u32],
    states: &mut [u32],
    stack: &mut [u32],
    paths: &mut [u32],
    lengths: &mut [u32],
) -> Found
    requires leads { Leads starts.now led.now (length states.old) }
    requires roots { (columns.now.runtime < length states.old) × Below (length states.old) columns.now.entry × (length columns.now.entry ≤ 16384) }
    requires room { length stack.old ≡ length states.old }
    ensures { Searches (led_by starts.now led.now) write (held states.old stack.old 0 paths.old lengths.old 0 0) (columns.now.runtime ∷ columns.now.entry) (held states.new stack.new 0 paths.new lengths.new result.count result.used) }
{
    let none = Found { count: 0, used: 0 };
    let runtime = columns.runtime;
    let mut found = meet(starts, led, states, stack, paths, lengths, runtime, 0, none);
    for root in columns.entry {
        found = meet(starts, led, states, stack, paths, lengths, *root, 0, found);
    }
    found
}

// The circles over `n` modules: how many they are and how many places they take, and as much of them as fits in the slices. First rows and leads stand beside the columns, as working space.
fn search_circles(
    columns: &Columns,
    starts: &[u32],
    led: &[u32],
    paths: &mut [u32],
    lengths: &mut [u32],
    n: usize,
) -> Found
    requires { Searched columns.now starts.now led.now n }
    ensures { listed paths.new lengths.new result.count result.used ≡ foldl write (listed paths.old lengths.old 0 0) (circles (led_by starts.now led.now) n (columns.now.runtime ∷ columns.now.entry)) }
{
    let mut states = [0u32; MODULE_LIMIT];
    let mut stack = [0u32; MODULE_LIMIT];
    meet_roots(
        columns,
        starts,
        led,
        &mut states[..n],
        &mut stack[..n],
        paths,
        lengths,
    )
}

// Counts the circles, and writes them if there is room for all.
fn write_circles(
    columns: &Columns,
    starts: &[u32],
    led: &[u32],
    paths: &mut [u32],
    lengths: &mut [u32],
    n: usize,
) -> Result<usize, Refusal>
    requires { Searched columns.now starts.now led.now n }
    ensures { Gathered (circles (led_by starts.now led.now) n (columns.now.runtime ∷ columns.now.entry)) paths.old lengths.old result paths.new lengths.new }
{
    let mut no_paths = [0u32; 1];
    let mut no_lengths = [0u32; 1];
    let found = search_circles(
        columns,
        starts,
        led,
        &mut no_paths[..0],
        &mut no_lengths[..0],
        n,
    );
    let count = found.count;
    let used = found.used;
    if count == 0 {
        return Ok(0);
    }
    if paths.len() < used || lengths.len() < count {
        return Err(Refusal::ShortForCircles);
    }
    search_circles(columns, starts, led, paths, lengths, n);
    Ok(count)
}

// The circles of the sort's walk: the paths one after the other, and their lengths.
#[tactic(auto, unfolding(current_columns::specs::AsProject::project))]
pub fn gather_circles(
    columns: &Columns,
    paths: &mut [u32],
    lengths: &mut [u32],
) -> Result<usize, Refusal>
    requires fit { Fit columns.now (modules columns.now) }
    requires importers { Below (modules columns.now) columns.now.record_module }
    requires roots { (columns.now.runtime < modules columns.now) × Below (modules columns.now) columns.now.entry × (length columns.now.entry ≤ 16384) }
    ensures { Gathered (circles (statics_of columns.now.dynamic columns.now.normal columns.now.record_module columns.now.record_kind columns.now.record_target) (modules columns.now) (columns.now.runtime ∷ columns.now.entry)) paths.old lengths.old result paths.new lengths.new }
{
    let n = columns.normal.len();
    let mut starts = [0u32; MODULE_LIMIT + 1];
    let starts = &mut starts[..n + 1];
    first_rows(columns.record_module, starts);
    let mut led = [0u32; ROW_LIMIT];
    let led = &mut led[..columns.record_module.len()];
    lead_rows(columns, led);
    write_circles(columns, starts, led, paths, lengths, n)
}
