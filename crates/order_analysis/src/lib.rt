// The whole analysis.
#![tactic(auto)]

ghost use Rattle.arrangement.specs.OfProject.{as_named};
ghost use Rattle.order_analysis.specs.Promise.{WholeAnalysis};

use arrangement::inner::read_named;
use current_columns::inner::ReadSpace;
use inner::analyze;
use table::{ROW_LIMIT, Table};
use tables::Refusal;

pub mod inner;

// The plan from all analysed entries' risks and the seed rows: 0 or 1 for each module, written to `marks` from place 0. The count is that of the ones.
pub fn analyze_execution_order(table: &Table, marks: &mut [u32]) -> Result<usize, Refusal>
    ensures { WholeAnalysis (as_named table.now) marks.old result marks.new }
{
    let mut space = ReadSpace::EMPTY;
    let mut arranged = [0u32; ROW_LIMIT];
    let current = read_named(table, &mut space, &mut arranged)?;
    let n = current.modules();
    if marks.len() < n {
        return Err(Refusal::ShortSlice);
    }
    let count = analyze(&current, &mut marks[..n]);
    Ok(count)
}
