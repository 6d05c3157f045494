// For crates above, on tested tables.
ghost use Rattle.std.specs.Prelude.{◌≡◌, ◌<◌, ◌≤◌, true, length};
ghost use Rattle.lists.specs.Words.{has};
ghost use Rattle.tables.specs.Readings.{modules};
ghost use Rattle.tables.specs.Refusal.{module_limit};
ghost use Rattle.tables.specs.Accepted.{Below};
ghost use Rattle.expected_visit.specs.OfProject.{expected_of};
ghost use Rattle.sensitivity.specs.Marks.{sensitive_marks};
ghost use Rattle.eligibility.specs.Eligible.{eligible_marks};
ghost use Rattle.wrap_rules.specs.inner.Passes.{Marked};
ghost use Rattle.marks.specs.Steps.{Added};
ghost use Rattle.suffix_rule.specs.inner.Suffix.{FirstIn, InSuffix, Joined, WholeSuffix, Extended, Settling, SuffixPassed};

use expected_order::inner::find_expected;
use lists::inner::count_marked;
use marks::inner::{add, any_open, mark_owners};
use rule_sets::inner::{ReachedSet, RootSets};
use table::MODULE_LIMIT;

// The place of the first member of an order that is in two sets, or the order's length, so that nothing is behind it.
// Orders and sets are slices here and below: this is of any order and any sets.
fn first_in(order: &[u32], first: &[u32], second: &[u32]) -> usize
    requires members { Below (length first.now) order.now }
    requires rows { length second.now ≡ length first.now }
    ensures { FirstIn first.now second.now order.now result }
{
    for (k, &member) in order.iter().enumerate() {
        let m = member as usize;
        if first[m] != 0 && second[m] != 0 {
            return k;
        }
    }
    order.len()
}

// Whether no sensitive eligible member of an order stands before the first planned one.
fn is_whole(order: &[u32], sensitive: &[u32], eligible: &[u32], plan: &[u32]) -> bool
    requires members { Below (length sensitive.now) order.now }
    requires eligible { length eligible.now ≡ length sensitive.now }
    requires rows { length plan.now ≡ length sensitive.now }
    ensures { result ≡ true → WholeSuffix order.now sensitive.now eligible.now plan.now }
{
    let first = first_in(order, sensitive, eligible);
    let from = first_in(order, sensitive, plan);
    from <= first
}

// Marks the sensitive members of an order from the first planned one on, besides what is marked.
pub fn mark_suffix(order: &[u32], sensitive: &[u32], plan: &[u32], marks: &mut [u32])
    requires members { Below (length sensitive.now) order.now }
    requires rows { length plan.now ≡ length sensitive.now }
    requires size { length marks.old ≡ length sensitive.now }
    ensures { Joined (InSuffix order.now sensitive.now plan.now) marks.old marks.new }
{
    let from = first_in(order, sensitive, plan);
    let suffix = &order[from..];
    mark_owners(suffix, suffix, sensitive, marks);
}

// Plans the eligible ones of these. Whether any was added.
fn add_suffix(order: &[u32], sensitive: &[u32], eligible: &[u32], plan: &mut [u32]) -> bool
    requires members { Below (length plan.old) order.now }
    requires sensitive { length sensitive.now ≡ length plan.old }
    requires eligible { length eligible.now ≡ length plan.old }
    requires few { length plan.old ≤ module_limit }
    ensures { Added (λ m. InSuffix order.now sensitive.now plan.old m × (has eligible.now m ≡ true)) plan.old plan.new result }
{
    let mut marks = [0u32; MODULE_LIMIT];
    let marks = &mut marks[..plan.len()];
    mark_suffix(order, sensitive, plan, marks);
    add(marks, eligible, eligible, plan)
}

// Plans the suffix of an order, and settles its entry if no eligible member stands before the suffix. Whether any module was added.
fn extend_order(
    order: &[u32],
    sensitive: &[u32],
    eligible: &[u32],
    settled: &mut [u32],
    plan: &mut [u32],
    k: usize,
) -> bool
    requires members { Below (length plan.old) order.now }
    requires sensitive { length sensitive.now ≡ length plan.old }
    requires eligible { length eligible.now ≡ length plan.old }
    requires few { length plan.old ≤ module_limit }
    requires entry { k < length settled.old }
    ensures { Extended order.now sensitive.now eligible.now k settled.old settled.new plan.old plan.new result }
{
    let whole = is_whole(order, sensitive, eligible, plan);
    let changed = add_suffix(order, sensitive, eligible, plan);
    if whole {
        settled[k] = 1;
    }
    changed
}

// The same for the expected order of a module row of a table. Each rule's pass writes another slice beside the plan, here what is settled.
fn extend_entry(
    rooted: &RootSets,
    settled: &mut [u32],
    plan: &mut [u32],
    root: u32,
    k: usize,
) -> bool
    requires plan { length plan.old ≡ modules rooted.now }
    requires root { root < modules rooted.now }
    requires entry { k < length settled.old }
    ensures { Extended (expected_of rooted.now root) (sensitive_marks rooted.now) (eligible_marks rooted.now) k settled.old settled.new plan.old plan.new result }
{
    let sets = rooted.sets;
    let mut order = [0u32; MODULE_LIMIT];
    let order = find_expected(sets.current, &mut order, root);
    extend_order(order, sets.sensitive, sets.eligible, settled, plan, k)
}

// The same for each root; a settled one isn't walked again.
fn extend_entries(rooted: &RootSets, settled: &mut [u32], plan: &mut [u32]) -> bool
    requires plan { Marked rooted.now plan.old }
    requires settled { Settling rooted.now settled.old plan.old }
    ensures { SuffixPassed rooted.now plan.old settled.new plan.new result }
{
    let mut changed = false;
    for (k, &root) in rooted.roots.iter().enumerate() {
        if settled[k] != 0 {
            continue;
        }
        if !extend_entry(rooted, settled, plan, root, k) {
            continue;
        }
        changed = true;
    }
    changed
}

// One pass of rule (i) over a table. It asks for nothing where every entry is settled, or every sensitive candidate, a reached eligible module, is planned.
// Whether any module was added. The reached modules stand beside the roots' sets, since rules (iii) and (iv) take them alone.
pub fn pass_suffixes(
    rooted: &RootSets,
    reached: &ReachedSet,
    settled: &mut [u32],
    plan: &mut [u32],
) -> bool
    requires same { reached.now ≡ rooted.now }
    requires plan { Marked rooted.now plan.old }
    requires settled { Settling rooted.now settled.old plan.old }
    ensures { SuffixPassed rooted.now plan.old settled.new plan.new result }
{
    if count_marked(settled) == settled.len() {
        return false;
    }
    if !any_open(rooted.sets.sensitive, reached.candidates, plan) {
        return false;
    }
    extend_entries(rooted, settled, plan)
}
