// For crates above, on tested tables. Columns that all take: `ways` says how a module executes (0: it does nothing; 1: as a member of a chunk that is
// visited; 2: where it is triggered, and a root last), `triggers` which module a record row triggers, or the mark, `starts` where the rows of each module start.
ghost use Rattle.std.specs.Prelude.{◌≡◌, ◌<◌, [], ◌∷◌, length};
ghost use mathlib.Core.List.{foldl};
ghost use Rattle.lists.specs.Words.{keep};
ghost use Rattle.walk.specs.Walk.{Visits, everywhere};
ghost use Rattle.tables.specs.Accepted.{Below};
ghost use Rattle.visit_steps.specs.inner.Steps.{leads, fills, in_way};
ghost use Rattle.module_visits.specs.inner.Visits.{Ready, executing, hosted};

use tables::ModuleIdx;
use visit_steps::inner::{ActualOrderTraversal, enter, leave_module};

// Executes a module under a host: marks it, executes what it triggers under the same host, then lists it and notes the host, if that is another.
fn execute_actual_module<'a>(
    starts: &'a [u32],
    triggers: &'a [u32],
    marks: &mut [u32],
    order: &mut [u32],
    hosts: &mut [u32],
    m: u32,
    host: u32,
    traversal: &mut ActualOrderTraversal,
)
    requires { Ready starts.now triggers.now marks.old order.old hosts.old traversal.old × (m < length marks.old) }
    ensures { Visits (leads starts.now triggers.now) everywhere (fills host) (executing marks.old order.old hosts.old traversal.old.placed) (m ∷ []) (executing marks.new order.new hosts.new traversal.new.placed) × (traversal.new.next ≡ traversal.new.placed) }
{
    let Some(rows) = enter(starts, triggers, marks, m) else {
        return;
    };
    for &t in rows {
        if t == ModuleIdx::MISSING {
            continue;
        }
        execute_actual_module(starts, triggers, marks, order, hosts, t, host, traversal);
    }
    let before = *traversal;
    *traversal = leave_module(order, hosts, m, host, before);
}

// Executes those of some modules that execute in a way, in order, each its own host. Marks, order and hosts stay plain slices beside
// the counters; the way is a number as in the column.
pub fn execute_members<'a>(
    ways: &'a [u32],
    starts: &'a [u32],
    triggers: &'a [u32],
    member: &'a [u32],
    marks: &mut [u32],
    order: &mut [u32],
    hosts: &mut [u32],
    way: u32,
    traversal: &mut ActualOrderTraversal,
)
    requires { Ready starts.now triggers.now marks.old order.old hosts.old traversal.old × (length ways.now ≡ length marks.old) × Below (length marks.old) member.now }
    ensures { (foldl (hosted (leads starts.now triggers.now)) (executing marks.old order.old hosts.old traversal.old.placed) (keep (in_way way ways.now) member.now) ≡ executing marks.new order.new hosts.new traversal.new.placed) × (traversal.new.next ≡ traversal.new.placed) }
{
    for &m in member {
        if ways[m as usize] != way {
            continue;
        }
        execute_actual_module(starts, triggers, marks, order, hosts, m, m, traversal);
    }
}
