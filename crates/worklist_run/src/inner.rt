// For crates above, on tested tables.
ghost use Rattle.std.specs.Prelude.{◌≡◌, ◌≤◌, length};
ghost use Rattle.tables.specs.Readings.{modules};
ghost use Rattle.tables.specs.Accepted.{Below};
ghost use Rattle.worklist_taking.specs.inner.State.{GraphOf};
ghost use Rattle.worklist_run.specs.inner.Run.{Ran};

use request_graph::inner::NODES;
use request_queue::inner::Queue;
use rule_sets::inner::{ReachedSet, RootSets};
use strong_connection::inner::Digraph;
use table::{MODULE_LIMIT, ROW_LIMIT};
use worklist::inner::take_all;
use worklist_batch::inner::Notes;

// The numbers of takings, with `NEVER`.
const TAKINGS: usize = 4098;

// Takes the modules of a worklist over a request graph: `placed` gets each one's place in the list, counted from 1, and `lengths` the length of the list after
// each number of takings but the last, from none on. How many there are.
pub fn run_linked(
    rooted: &RootSets,
    reached: &ReachedSet,
    graph: &Digraph,
    seeds: &[u32],
    placed: &mut [u32],
    lengths: &mut [u32],
) -> usize
    requires same { reached.now ≡ rooted.now }
    requires graph { GraphOf rooted.now graph.now }
    requires seeds { Below (modules rooted.now) seeds.now }
    requires size { length placed.old ≡ modules rooted.now }
    requires room { modules rooted.now ≤ length lengths.old }
    ensures { Ran rooted.now seeds.now placed.new lengths.old lengths.new result }
{
    let n = placed.len();
    let mut settled = [0u32; ROW_LIMIT];
    let settled = &mut settled[..rooted.roots.len()];
    let mut asked = [0u32; MODULE_LIMIT];
    let mut heads = [0u32; TAKINGS];
    let mut nexts = [0u32; MODULE_LIMIT];
    let mut notes = Notes::new(settled, &mut asked[..n], &mut heads, &mut nexts[..n]);
    let mut marks = [0u32; NODES];
    let mut queue = [0u32; NODES];
    let mut met = Queue::new(&mut marks, &mut queue);
    let mut listed = [0u32; MODULE_LIMIT];
    let mut list = Queue::new(placed, &mut listed[..n]);
    take_all(
        rooted, reached, graph, seeds, &mut met, &mut list, &mut notes, lengths,
    )
}
