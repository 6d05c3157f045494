// For crates above, on columns that fit and on tested tables.
ghost use Rattle.std.specs.Prelude.{◌≡◌, ℕ, ◌≤◌, true, length, ◌≢◌};
ghost use Rattle.lists.specs.Words.{has};
ghost use Rattle.tables.specs.Accepted.{Below};
ghost use Rattle.strong_connection.specs.inner.Graph.{Graph};
ghost use Rattle.reached_modules.specs.inner.Roots.{Written, Reaching, Chosen, Choosing};
ghost use Rattle.tables.specs.Refusal.{module_limit, row_limit};
ghost use Rattle.wrap_rules.specs.Plan.{roots as roots_of};
ghost use Rattle.wrap_rules.specs.inner.Passes.{candidate_marks};

use current_columns::inner::{Columns, Current};
use import_edges::inner::spread;
use marks::inner::{add, mark_owners};
use strong_connection::inner::Digraph;
use table::{MODULE_LIMIT, ROW_LIMIT};
use tables::ModuleIdx;

// Lists the modules of the analysed entries. How many there are: counted beside the slice, since zipped with its places they'd be counted by a second pass.
#[tactic(auto, using(crate::proofs::Listing::root_steps), unfolding(current_columns::specs::AsProject::project))]
pub fn list_roots(columns: &Columns, list: &mut [u32]) -> usize
    requires modules { Below (length columns.now.included) columns.now.entry }
    requires rows { length columns.now.entry_chunk ≡ length columns.now.entry }
    requires room { length columns.now.entry ≤ length list.old }
    ensures { Written (roots_of columns.now) list.old list.new result }
{
    let mut count = 0;
    for (&m, &chunk) in columns.entry.iter().zip(columns.entry_chunk) {
        if chunk == ModuleIdx::MISSING {
            continue;
        }
        if columns.included[m as usize] != 1 {
            continue;
        }
        list[count] = m;
        count += 1;
    }
    count
}

// Marks the modules that the roots reach along the edges, themselves counted. The edges are two slices here and below: the graph of them is made in working space.
fn source_reachable_modules(
    columns: &Columns,
    from: &[u32],
    to: &[u32],
    roots: &[u32],
    reached: &mut [u32],
)
    requires few { length reached.old ≤ module_limit }
    requires rows { length from.now ≤ row_limit }
    requires edges { Graph from.now to.now (length reached.old) }
    requires includeds { length columns.now.included ≡ length reached.old }
    requires roots { Below (length reached.old) roots.now }
    requires none { (m : ℕ) → has reached.old m ≢ true }
    ensures { Reaching columns.now.included roots.now from.now to.now (length reached.old) reached.new }
{
    let n = reached.len();
    let mut start = [0u32; MODULE_LIMIT];
    let mut heads = [0u32; MODULE_LIMIT];
    let mut nexts = [0u32; ROW_LIMIT];
    let start = &mut start[..n];
    mark_owners(roots, roots, columns.included, start);
    let imports = Digraph::new(from, to, &mut heads[..n], &mut nexts);
    spread(&imports, start, reached);
}

// Marks the reached eligible modules: of any roots, edges and marks.
#[tactic(auto, unfolding(current_columns::specs::AsProject::project))]
pub fn mark_candidates(
    columns: &Columns,
    from: &[u32],
    to: &[u32],
    roots: &[u32],
    eligible: &[u32],
    candidates: &mut [u32],
)
    requires few { length candidates.old ≤ module_limit }
    requires rows { length from.now ≤ row_limit }
    requires edges { Graph from.now to.now (length candidates.old) }
    requires includeds { length columns.now.included ≡ length candidates.old }
    requires roots { Below (length candidates.old) roots.now }
    requires modules { length eligible.now ≡ length candidates.old }
    requires none { (m : ℕ) → has candidates.old m ≢ true }
    ensures { Chosen columns.now.included roots.now from.now to.now eligible.now candidates.old candidates.new }
{
    let mut reached = [0u32; MODULE_LIMIT];
    let reached = &mut reached[..candidates.len()];
    source_reachable_modules(columns, from, to, roots, reached);
    add(reached, eligible, eligible, candidates);
}

// Marks those of a table.
pub fn choose_candidates(
    current: &Current,
    from: &[u32],
    to: &[u32],
    roots: &[u32],
    eligible: &[u32],
    candidates: &mut [u32],
)
    requires choosing { Choosing current.now from.now to.now roots.now eligible.now candidates.old }
    ensures { candidates.new ≡ candidate_marks current.now }
{
    let columns = current.columns();
    mark_candidates(columns, from, to, roots, eligible, candidates);
}
