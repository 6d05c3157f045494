// Chunk contents as rolldown arranges them.
#![tactic(auto)]

ghost use Rattle.table.specs.Lending.{as_lent};
ghost use Rattle.sort_chunk_modules.specs.Promise.{SortChunkModules};

use arrangement::inner::arrange_members;
use current_columns::inner::{ReadSpace, read_table};
use refusal::{test, tested_too};
use table::Table;
use tables::Refusal;

// The members of each chunk, arranged, at the chunk's member rows. The count is that of the member rows.
#[tactic(auto, using(crate::proofs::Promise::passing), unfolding(current_columns::specs::AsProject::project))]
pub fn sort_chunk_modules(table: &Table, out: &mut [u32]) -> Result<usize, Refusal>
    ensures { SortChunkModules (as_lent table.now) table.now.names.now out.old result out.new }
{
    let refused = test(table).err();
    if let Some(refusal) = tested_too(refused, true, 0 < table.names.len()) {
        return Err(refusal);
    }
    let mut space = ReadSpace::EMPTY;
    let current = read_table(table, &mut space);
    let columns = current.columns();
    let members = columns.member.len();
    if out.len() < members {
        return Err(Refusal::ShortSlice);
    }
    arrange_members(&current, table.names, &mut out[..members]);
    Ok(members)
}
