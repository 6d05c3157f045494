// For crates above, on tested tables.
ghost use Rattle.std.specs.Prelude.{◌≡◌, ◌<◌, length};
ghost use Rattle.tables.specs.Readings.{modules};
ghost use Rattle.expected_visit.specs.OfProject.{expected_of};
ghost use Rattle.sensitivity.specs.Marks.{sensitive_marks};
ghost use Rattle.wrap_rules.specs.Plan.{roots};
ghost use Rattle.wrap_rules.specs.inner.Passes.{Marked};
ghost use Rattle.suffix_rule.specs.inner.Suffix.{InSuffix, Joined};
ghost use Rattle.asked_suffixes.specs.inner.Asked.{InSome, SuffixesAdded};

use expected_order::inner::find_expected;
use marks::inner::add;
use rule_sets::inner::RootSets;
use suffix_rule::inner::mark_suffix;
use table::MODULE_LIMIT;

// Marks the suffix of the expected order of a module row of a table.
fn mark_entry(rooted: &RootSets, plan: &[u32], asked: &mut [u32], root: u32)
    requires plan { length plan.now ≡ modules rooted.now }
    requires size { length asked.old ≡ modules rooted.now }
    requires root { root < modules rooted.now }
    ensures { Joined (InSuffix (expected_of rooted.now root) (sensitive_marks rooted.now) plan.now) asked.old asked.new }
{
    let mut order = [0u32; MODULE_LIMIT];
    let order = find_expected(rooted.sets.current, &mut order, root);
    mark_suffix(order, rooted.sets.sensitive, plan, asked);
}

// The same for each root, all by the plan as it is.
fn mark_entries(rooted: &RootSets, plan: &[u32], asked: &mut [u32])
    requires plan { length plan.now ≡ modules rooted.now }
    requires size { length asked.old ≡ modules rooted.now }
    ensures { Joined (InSome rooted.now (roots rooted.now) (sensitive_marks rooted.now) plan.now) asked.old asked.new }
{
    for &root in rooted.roots {
        mark_entry(rooted, plan, asked, root);
    }
}

// Adds what rule (i) asks for with a plan to a copy of it. Whether any module was new.
pub fn add_suffixes(rooted: &RootSets, plan: &[u32], copy: &mut [u32]) -> bool
    requires plan { Marked rooted.now plan.now }
    requires copy { copy.old ≡ plan.now }
    ensures { SuffixesAdded rooted.now plan.now copy.new result }
{
    let mut asked = [0u32; MODULE_LIMIT];
    let asked = &mut asked[..rooted.sets.current.modules()];
    mark_entries(rooted, plan, asked);
    add(asked, rooted.sets.eligible, rooted.sets.eligible, copy)
}
