// For crates above, on tested tables.
ghost use Rattle.std.specs.Prelude.{◌≡◌, ◌*◌, ◌<◌, ◌≤◌, [], ◌∷◌, length};
ghost use Rattle.tables.specs.Refusal.{module_limit};
ghost use Rattle.circle_search.specs.Circles.{path_to};
ghost use Rattle.circle_search.specs.inner.Search.{Searches};
ghost use Rattle.circle_visit.specs.Visit.{listed, write, led_by, held, Leads, Room, path_limit};

use crate::places::{place_of, put_all, put_at};
use tables::ModuleIdx;

// How many paths were found, and how many places they take.
#[derive(Clone, Copy)]
pub struct Found {
    pub count: usize,
    pub used: usize,
}

// Writes the path that meeting m closes: the begun modules from m on, and m again. What has no place is counted and not written.
fn close_path(begun: &[u32], paths: &mut [u32], lengths: &mut [u32], m: u32, found: Found) -> Found
    requires { (length begun.now ≤ module_limit) × (found.count < path_limit) × (found.used ≤ found.count * 4097) }
    ensures { listed paths.new lengths.new result.count result.used ≡ write (listed paths.old lengths.old found.count found.used) (path_to m begun.now) }
{
    let start = place_of(begun, m);
    let open = begun.len() - start;
    let count = found.count;
    let used = found.used;
    put_all(&begun[start..], paths, used);
    put_at(paths, used + open, m);
    put_at(lengths, count, (open + 1) as u32);
    Found {
        count: count + 1,
        used: used + (open + 1),
    }
}

// Meets a module: one that has a number is passed, one that is begun closes a path, and any other is begun, its rows are followed in order, and it takes
// its number. `led` has the module that each row leads to or the mark, `starts` each module's first row, `stack` the begun modules, `depth` of them.
#[tactic(auto, using(crate::proofs::Turns::path_closed, crate::proofs::Turns::number_passed))]
pub fn meet<'a>(
    starts: &'a [u32],
    led: &'a [u32],
    states: &mut [u32],
    stack: &mut [u32],
    paths: &mut [u32],
    lengths: &mut [u32],
    m: u32,
    depth: usize,
    found: Found,
) -> Found
    requires leads { Leads starts.now led.now (length states.old) }
    requires module { m < length states.old }
    requires room { Room states.old stack.old depth found.count found.used }
    ensures { Searches (led_by starts.now led.now) write (held states.old stack.old depth paths.old lengths.old found.count found.used) (m ∷ []) (held states.new stack.new depth paths.new lengths.new result.count result.used) }
{
    let at = m as usize;
    // a slice holds the states: 0 is not begun, 1 begun, and any other done
    let state = states[at];
    if state == 1 {
        return close_path(&stack[..depth], paths, lengths, m, found);
    }
    if state != 0 {
        return found;
    }
    states[at] = 1;
    stack[depth] = m;
    let start = starts[at] as usize;
    let end = starts[at + 1] as usize;
    let mut so_far = found;
    for &t in &led[start..end] {
        if t == ModuleIdx::MISSING {
            continue;
        }
        if states[t as usize] == 2 {
            continue;
        }
        so_far = meet(
            starts,
            led,
            states,
            stack,
            paths,
            lengths,
            t,
            depth + 1,
            so_far,
        );
    }
    states[at] = 2;
    so_far
}
