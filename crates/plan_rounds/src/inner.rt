// For crates above, on tested tables.
ghost use Rattle.std.specs.Prelude.{◌≡◌};
ghost use Rattle.wrap_rules.specs.inner.Passes.{Marked};
ghost use Rattle.plan_rounds.specs.inner.Rounds.{Kept, Once, closed};

use component_rule::inner::pass_members;
use import_rule::inner::pass_importers;
use read_rule::inner::pass_readers;
use rule_sets::inner::{LabelSets, RuleSets, RuleSpace, read_sets};
use suffix_rule::inner::pass_suffixes;
use table::{MODULE_LIMIT, ROW_LIMIT};

// One pass of each rule. Whether any module was added. What is settled, what leads to the plan, and the plan are lent on singly, since each rule writes another one.
fn close_once(sets: &RuleSets, settled: &mut [u32], leads: &mut [u32], plan: &mut [u32]) -> bool
    requires kept { Kept sets.now settled.old leads.old plan.old }
    ensures { Once sets.now plan.old settled.new leads.new plan.new result }
{
    let suffixes = pass_suffixes(&sets.rooted, &sets.reached, settled, plan);
    let cyclic = pass_members(&sets.labelled, plan);
    let imports = pass_importers(&sets.reached, &sets.imports, leads, plan);
    let readers = pass_readers(&sets.reached, plan);
    suffixes | (cyclic | (imports | readers))
}

// Passes of the rules until nothing changes.
fn close_plan(sets: &RuleSets, settled: &mut [u32], leads: &mut [u32], plan: &mut [u32])
    requires kept { Kept sets.now settled.old leads.old plan.old }
    ensures { plan.new ≡ closed sets.now plan.old }
{
    let mut more = true;
    // rounds: each reads the plan that the last one left
    while more {
        let changed = close_once(sets, settled, leads, plan);
        more = changed;
    }
}

// Closes a plan under the four rules. `plan` has the marks to start from.
pub fn build_order_wrap_plan(labelled: &LabelSets, plan: &mut [u32])
    requires { Marked labelled.now plan.old }
    ensures { plan.new ≡ closed labelled.now plan.old }
{
    let mut space = RuleSpace::EMPTY;
    // the same sets, lent for as long as the space is
    let labelled = LabelSets { ..*labelled };
    let sets = read_sets(&labelled, &mut space);
    let n = labelled.sets.current.modules();
    let rooted = &sets.rooted;
    let rows = rooted.roots.len();
    let mut settled = [0u32; ROW_LIMIT];
    let settled = &mut settled[..rows];
    let mut leads = [0u32; MODULE_LIMIT];
    let leads = &mut leads[..n];
    close_plan(&sets, settled, leads, plan);
}
