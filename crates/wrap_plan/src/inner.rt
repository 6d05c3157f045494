// For crates above, on tested tables.
ghost use Rattle.std.specs.Prelude.{◌≡◌, length};
ghost use Rattle.lists.specs.Words.{ones};
ghost use Rattle.wrap_plan.specs.Promise.{plan_of};
ghost use Rattle.wrap_plan.specs.inner.Seeded.{Seeds};

use current_columns::inner::Current;
use lists::inner::{count_marked, fill};
use plan_rounds::inner::build_order_wrap_plan;
use rule_sets::inner::{LabelSpace, read_labels};
use seeds::inner::mark_seeds;

// The plan from seeds, as marks. How many are marked.
pub fn plan_seeds(current: &Current, seeds: &[u32], plan: &mut [u32]) -> usize
    requires seeds { Seeds current.now seeds.now (length plan.old) }
    ensures plan { plan.new ≡ plan_of current.now seeds.now }
    ensures count { result ≡ ones (plan_of current.now seeds.now) }
{
    let mut space = LabelSpace::EMPTY;
    let labelled = read_labels(current, &mut space);
    fill(plan, 0);
    mark_seeds(seeds, labelled.sets.eligible, plan);
    build_order_wrap_plan(&labelled, plan);
    count_marked(plan)
}
