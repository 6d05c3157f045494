// For crates above, on columns that fit and on graphs.
ghost use Rattle.std.specs.Prelude.{◌≡◌, ◌≤◌, length};
ghost use Rattle.import_edges.specs.inner.Spread.{EdgesOf, Spreads, Spreadable};

use current_columns::inner::Columns;
use strong_connection::inner::{Digraph, visit};
use tables::Target;
use tables::inner::resolve;

// Writes the importer and the target of each kind 0 record that has a target. How many there are: counted beside the slices, since zipped with their
// places the records would be counted by a second pass.
#[tactic(auto, using(crate::proofs::Edging::import_steps), unfolding(current_columns::specs::AsProject::project))]
pub fn list_edges(columns: &Columns, from: &mut [u32], to: &mut [u32]) -> usize
    requires kinds { length columns.now.record_kind ≡ length columns.now.record_module }
    requires rows { length columns.now.record_target ≡ length columns.now.record_module }
    requires from { length columns.now.record_module ≤ length from.old }
    requires to { length columns.now.record_module ≤ length to.old }
    ensures { EdgesOf columns.now from.new to.new result }
{
    let mut count = 0;
    for (row, &importer) in columns.record_module.iter().enumerate() {
        if columns.record_kind[row] != 0 {
            continue;
        }
        let found = resolve(columns.normal, columns.record_target, row);
        let (Target::External(target) | Target::Normal(target)) = found else {
            continue;
        };
        from[count] = importer;
        to[count] = target;
        count += 1;
    }
    count
}

// Marks what a set leads to along the edges, itself counted. `marks` has what an earlier, smaller set leads to.
pub fn spread(graph: &Digraph, set: &[u32], marks: &mut [u32])
    requires { Spreadable graph.now set.now marks.old }
    ensures { Spreads graph.now.from graph.now.to set.now marks.new }
{
    for (m, &mark) in set.iter().enumerate() {
        if mark == 0 {
            continue;
        }
        if marks[m] != 0 {
            continue;
        }
        visit(graph, m as u32, marks);
    }
}
