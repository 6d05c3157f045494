// For crates above, on tested tables.
ghost use Rattle.std.specs.Prelude.{◌≡◌, ◌≤◌, length};
ghost use Rattle.lists.specs.Words.{ones};
ghost use Rattle.tables.specs.Readings.{modules};
ghost use Rattle.tables.specs.Accepted.{Below};
ghost use Rattle.wrap_plan.specs.Promise.{plan_of};
ghost use Rattle.wrap_plan.specs.inner.Seeded.{Seeds};
ghost use Rattle.worklist_run.specs.inner.Run.{Ran};
ghost use Rattle.worklist_plan.specs.inner.Written.{RunWritten};

use current_columns::inner::Current;
use lists::inner::count_marked;
use request_edges::inner::EdgeList;
use request_graph::inner::{EDGES, NODES, request_edges};
use rule_sets::inner::{LabelSpace, RuleSets, RuleSpace, read_labels, read_sets};
use strong_connection::inner::Digraph;
use table::MODULE_LIMIT;
use worklist_ends::inner::{mark_listed, write_listed};
use worklist_run::inner::run_linked;

// Makes the request graph, and takes the modules of a worklist over it.
fn run_sets(sets: &RuleSets, seeds: &[u32], placed: &mut [u32], lengths: &mut [u32]) -> usize
    requires seeds { Below (modules sets.now) seeds.now }
    requires size { length placed.old ≡ modules sets.now }
    requires room { modules sets.now ≤ length lengths.old }
    ensures { Ran sets.now seeds.now placed.new lengths.old lengths.new result }
{
    let mut from = [0u32; EDGES];
    let mut to = [0u32; EDGES];
    let mut edges = EdgeList::new(&mut from, &mut to);
    let imports = &sets.imports;
    request_edges(
        &sets.labelled,
        &sets.reached,
        imports.to(),
        imports.from(),
        &mut edges,
    );
    let mut heads = [0u32; NODES];
    let mut nexts = [0u32; EDGES];
    let graph = Digraph::new(edges.sources(), edges.targets(), &mut heads, &mut nexts);
    run_linked(&sets.rooted, &sets.reached, &graph, seeds, placed, lengths)
}

// Takes the modules of a worklist, of a table.
fn run_table(current: &Current, seeds: &[u32], placed: &mut [u32], lengths: &mut [u32]) -> usize
    requires seeds { Below (modules current.now) seeds.now }
    requires size { length placed.old ≡ modules current.now }
    requires room { modules current.now ≤ length lengths.old }
    ensures { Ran current.now seeds.now placed.new lengths.old lengths.new result }
{
    let mut label_space = LabelSpace::EMPTY;
    let labelled = read_labels(current, &mut label_space);
    let mut space = RuleSpace::EMPTY;
    let sets = read_sets(&labelled, &mut space);
    run_sets(&sets, seeds, placed, lengths)
}

// The plan from seeds by a worklist, as marks. How many are marked.
pub fn plan_by_takings(current: &Current, seeds: &[u32], plan: &mut [u32]) -> usize
    requires seeds { Seeds current.now seeds.now (length plan.old) }
    ensures plan { plan.new ≡ plan_of current.now seeds.now }
    ensures count { result ≡ ones (plan_of current.now seeds.now) }
{
    let n = current.modules();
    let mut lengths = [0u32; MODULE_LIMIT];
    run_table(current, seeds, plan, &mut lengths[..n]);
    mark_listed(plan);
    count_marked(plan)
}

// The list of a worklist when all are taken, and its length after each number of takings but the last, from none on, in the order of taking. How many there are.
pub fn list_takings(
    current: &Current,
    seeds: &[u32],
    list: &mut [u32],
    lengths: &mut [u32],
) -> usize
    requires seeds { Seeds current.now seeds.now (modules current.now) }
    requires list { modules current.now ≤ length list.old }
    requires lengths { modules current.now ≤ length lengths.old }
    ensures { RunWritten current.now seeds.now list.old lengths.old list.new lengths.new result }
{
    let n = current.modules();
    let mut placed = [0u32; MODULE_LIMIT];
    let placed = &mut placed[..n];
    let count = run_table(current, seeds, placed, lengths);
    write_listed(placed, list);
    count
}
