// Cyclic chunks: labels, and whether a chunk reaches a cyclic one.
#![tactic(auto)]

ghost use Rattle.table.specs.Lending.{as_lent};
ghost use Rattle.chunk_cycles.specs.Promise.{LabelsPromise, ReachPromise};

use inner::{label_table, reaches_table};
use refusal::test_written;
use table::{CHUNK_LIMIT, Table};
use tables::Refusal;

pub mod inner;

// The labels of the chunks, written to `labels` from place 0; counts the cyclic chunks. Import rows are read as they are written.
#[tactic(auto, unfolding(table::specs::Table::read, table::specs::Table::current, crate::specs::Cycles::labels_of, crate::specs::Cycles::cyclic_of))]
pub fn labels(table: &Table, labels: &mut [u32]) -> Result<usize, Refusal>
    ensures { LabelsPromise (as_lent table.now) labels.old result labels.new }
{
    let written = test_written(table)?;
    let chunks = written.chunks();
    if labels.len() < chunks {
        return Err(Refusal::ShortSlice);
    }
    let count = label_table(&written, &mut labels[..chunks]);
    Ok(count)
}

// Whether a chunk reaches a cyclic one, itself counted: 1 or 0.
#[tactic(auto, unfolding(table::specs::Table::read, table::specs::Table::current, crate::specs::Cycles::reaches_cycle_of))]
pub fn chunk_reach(table: &Table, chunk: u32) -> Result<usize, Refusal>
    ensures { ReachPromise (as_lent table.now) chunk result }
{
    let written = test_written(table)?;
    let chunks = written.chunks();
    if chunks <= (chunk as usize) {
        return Err(Refusal::Argument);
    }
    let mut labels = [0u32; CHUNK_LIMIT];
    let labels = &mut labels[..chunks];
    label_table(&written, labels);
    let reaches = reaches_table(&written, labels, chunk);
    Ok(reaches as usize)
}
