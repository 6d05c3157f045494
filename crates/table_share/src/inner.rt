// For crates above, on tested tables.
ghost use Rattle.std.specs.Prelude.{◌≡◌, length};
ghost use Rattle.tables.specs.Readings.{modules};
ghost use Rattle.share_totals.specs.Shares.{share_of};
ghost use Rattle.table_share.specs.Counts.{eligible_count, planned_count};

use current_columns::inner::Current;
use eligibility::inner::mark_eligible;
use lists::inner::count_marked;
use order_analysis::inner::analyze;
use share_totals::Share;
use share_totals::inner::share_of;
use table::MODULE_LIMIT;

// How many modules are eligible. `marks` is working memory.
#[tactic(auto, using(eligibility::proofs::Fits::kinds_fit), unfolding(crate::specs::Counts::eligible_count))]
fn count_eligible(current: &Current, marks: &mut [u32]) -> usize
    requires places { length marks.old ≡ modules current.now }
    ensures { result ≡ eligible_count current.now }
{
    mark_eligible(current.columns(), marks);
    count_marked(marks)
}

// The share of a table.
pub fn share_of_table(current: &Current) -> Share
    ensures { result ≡ share_of (eligible_count current.now) (planned_count current.now) }
{
    let n = current.modules();
    let mut marks = [0u32; MODULE_LIMIT];
    let marks = &mut marks[..n];
    let eligible = count_eligible(current, marks);
    let planned = analyze(current, marks);
    share_of(eligible as u32, planned as u32)
}
