// For crates above, on tested tables: the lowest module that each rule asks for and a plan lacks, if there is one. `copy` is working space.
// Plan and copy stay slices beside the sets: a value of the three would have a model and an invariant, and save two clauses.
ghost use Rattle.std.specs.Prelude.{◌≡◌, ℕ, Bool, true, [], length};
ghost use Rattle.tables.specs.Readings.{modules};
ghost use Rattle.chunk_cycles.specs.Cycles.{labels_of};
ghost use Rattle.marks.specs.Steps.{Added};
ghost use Rattle.rule_sets.specs.inner.Sets.{Edged};
ghost use Rattle.wrap_rules.specs.Plan.{Rule, suffix_rule, component_rule, import_rule, read_rule, asks, orders_of};
ghost use Rattle.wrap_rules.specs.inner.Passes.{Marked};
ghost use Rattle.plan_conditions.specs.Conditions.{broken, closed_under, lowest};

use asked_suffixes::inner::add_suffixes;
use component_rule::inner::pass_members;
use current_columns::inner::Current;
use import_rule::inner::pass_importers;
use plan_conditions::inner::lowest_lacking;
use read_rule::inner::pass_readers;
use rule_sets::inner::{LabelSets, ReachedSet, RootSets};
use strong_connection::inner::Digraph;
use table::MODULE_LIMIT;

// The lowest module that a copy has and the plan lacks: of any rule, where just what it asks for was added to the copy.
fn lowest_added(current: &Current, plan: &[u32], copy: &[u32]) -> Option<u32>
    requires plan { Marked current.now plan.now }
    requires copy { length copy.now ≡ length plan.now }
    ensures { (rule : Rule) → (changed : Bool) → Added (λ (m : ℕ). asks (orders_of current.now) (labels_of current.now) current.now rule plan.now m ≡ true) plan.now copy.now changed → result ≡ lowest (broken current.now [] plan.now (closed_under rule)) (modules current.now) }
{
    let n = current.modules();
    lowest_lacking(&copy[..n], &plan[..n])
}

// Rule (i).
pub fn lacking_suffix(rooted: &RootSets, plan: &[u32], copy: &mut [u32]) -> Option<u32>
    requires plan { Marked rooted.now plan.now }
    requires copy { length copy.old ≡ length plan.now }
    ensures { result ≡ lowest (broken rooted.now [] plan.now (closed_under suffix_rule)) (modules rooted.now) }
{
    copy.copy_from_slice(plan);
    add_suffixes(rooted, plan, copy);
    lowest_added(rooted.sets.current, plan, copy)
}

// Rule (ii).
pub fn lacking_member(labelled: &LabelSets, plan: &[u32], copy: &mut [u32]) -> Option<u32>
    requires plan { Marked labelled.now plan.now }
    requires copy { length copy.old ≡ length plan.now }
    ensures { result ≡ lowest (broken labelled.now [] plan.now (closed_under component_rule)) (modules labelled.now) }
{
    copy.copy_from_slice(plan);
    pass_members(labelled, copy);
    lowest_added(labelled.sets.current, plan, copy)
}

// Rule (iii), by the edges of the import records.
pub fn lacking_importer(
    reached: &ReachedSet,
    imports: &Digraph,
    plan: &[u32],
    copy: &mut [u32],
) -> Option<u32>
    requires edges { Edged reached.now imports.now }
    requires plan { Marked reached.now plan.now }
    requires copy { length copy.old ≡ length plan.now }
    ensures { result ≡ lowest (broken reached.now [] plan.now (closed_under import_rule)) (modules reached.now) }
{
    let mut leads = [0u32; MODULE_LIMIT];
    let leads = &mut leads[..reached.current.modules()];
    copy.copy_from_slice(plan);
    pass_importers(reached, imports, leads, copy);
    lowest_added(reached.current, plan, copy)
}

// Rule (iv).
pub fn lacking_reader(reached: &ReachedSet, plan: &[u32], copy: &mut [u32]) -> Option<u32>
    requires plan { Marked reached.now plan.now }
    requires copy { length copy.old ≡ length plan.now }
    ensures { result ≡ lowest (broken reached.now [] plan.now (closed_under read_rule)) (modules reached.now) }
{
    copy.copy_from_slice(plan);
    pass_readers(reached, copy);
    lowest_added(reached.current, plan, copy)
}
