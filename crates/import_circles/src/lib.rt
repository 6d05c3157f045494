// Import circles: which modules import each other in a ring.
#![tactic(auto)]

ghost use Rattle.table.specs.Lending.{as_lent};
ghost use Rattle.import_circles.specs.Promise.{ImportCircles};

use circle_gathering::inner::gather_circles;
use current_columns::inner::ReadSpace;
use refusal::read_tested;
use table::Table;
use tables::Refusal;

// The circles that the module sort meets, one path after the other from place 0, and the length of each.
#[tactic(auto, unfolding(crate::specs::OfProject::walked, crate::specs::OfProject::roots_of, crate::specs::OfProject::circles_of))]
pub fn import_circles(
    table: &Table,
    paths: &mut [u32],
    lengths: &mut [u32],
) -> Result<usize, Refusal>
    ensures { ImportCircles (as_lent table.now) paths.old lengths.old result paths.new lengths.new }
{
    let mut space = ReadSpace::EMPTY;
    let current = read_tested(table, &mut space)?;
    gather_circles(current.columns(), paths, lengths)
}
