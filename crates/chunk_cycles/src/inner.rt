// For crates above, on tested tables: labels and reach of a table's chunks.
ghost use Rattle.std.specs.Prelude.{◌≡◌, ◌<◌, ◌≤◌, length};
ghost use Rattle.lists.specs.Words.{any, up_to};
ghost use Rattle.tables.specs.Readings.{chunks, values_of};
ghost use Rattle.tables.specs.Refusal.{chunk_limit, row_limit};
ghost use Rattle.strong_connection.specs.Cycles.{labels as labelsOver, reaches_cycle};
ghost use Rattle.strong_connection.specs.inner.Graph.{Graph};
ghost use Rattle.chunk_cycles.specs.Cycles.{reaches_cycle_of};
ghost use Rattle.chunk_cycles.specs.inner.OverTable.{labelled_at, TableLabelled, Reaching};

use component_labels::inner::{count_labelled, label_chunks};
use current_columns::inner::Current;
use strong_connection::inner::{Digraph, reach};
use table::{CHUNK_LIMIT, ROW_LIMIT};
use tables::ModuleIdx;

// Whether a marked chunk has a label.
fn meets_labelled(marks: &[u32], labels: &[u32]) -> bool
    requires { length labels.now ≡ length marks.now }
    ensures { result ≡ any (labelled_at marks.now labels.now) (up_to (length marks.now)) }
{
    marks
        .iter()
        .zip(labels)
        .any(|(&mark, &label)| mark != 0 && label != ModuleIdx::MISSING)
}

// Whether c reaches a cyclic chunk, itself counted, by the chunks' labels.
fn reaches_cyclic(from: &[u32], to: &[u32], labels: &[u32], c: u32) -> bool
    requires few { length labels.now ≤ chunk_limit }
    requires rows { length from.now ≤ row_limit }
    requires graph { Graph from.now to.now (length labels.now) }
    requires labels { labels.now ≡ labelsOver (length labels.now) (values_of from.now to.now) }
    requires chunk { c < length labels.now }
    ensures { result ≡ reaches_cycle (length labels.now) (values_of from.now to.now) c }
{
    if count_labelled(labels) == 0 {
        return false;
    }
    let n = labels.len();
    // as where chunks are labelled: a graph borrows its arrays, so no function can make both
    let mut heads = [0u32; CHUNK_LIMIT];
    let mut nexts = [0u32; ROW_LIMIT];
    let graph = Digraph::new(from, to, &mut heads[..n], &mut nexts);
    let mut marks = [0u32; CHUNK_LIMIT];
    let marks = &mut marks[..n];
    reach(&graph, c, marks);
    meets_labelled(marks, labels)
}

// The labels of a table's chunks; counts the cyclic ones.
pub fn label_table(current: &Current, labels: &mut [u32]) -> usize
    requires places { length labels.old ≡ chunks current.now }
    ensures { TableLabelled current.now labels.new result }
{
    let columns = current.columns();
    label_chunks(columns.import_chunk, columns.imports, labels)
}

// Whether a chunk of a table reaches a cyclic one, itself counted, by the chunks' labels.
pub fn reaches_table(current: &Current, labels: &[u32], chunk: u32) -> bool
    requires labels { Reaching current.now labels.now chunk }
    ensures { result ≡ reaches_cycle_of current.now chunk }
{
    let columns = current.columns();
    reaches_cyclic(columns.import_chunk, columns.imports, labels, chunk)
}
