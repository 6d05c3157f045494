// For crates above, on tested tables.
ghost use Rattle.std.specs.Prelude.{◌≡◌, length};
ghost use Rattle.lists.specs.Words.{ones};
ghost use Rattle.tables.specs.Readings.{modules};
ghost use Rattle.sensitivity.specs.Marks.{grounds_of};

use current_columns::inner::Current;
use lists::inner::count_marked;
use sensitivity::inner::mark_sensitive;

// Writes the ground of each module. How many are above 0.
#[tactic(auto, using(sensitivity::proofs::Fits::fits))]
pub fn mark_grounds(current: &Current, marks: &mut [u32]) -> usize
    requires places { length marks.old ≡ modules current.now }
    ensures { (marks.new ≡ grounds_of current.now) × (result ≡ ones (grounds_of current.now)) }
{
    mark_sensitive(current.columns(), marks);
    count_marked(marks)
}
