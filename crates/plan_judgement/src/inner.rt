// For crates above, on tested tables.
ghost use Rattle.std.specs.Prelude.{◌≡◌, ℕ, ◌≤◌, not, ◌&&◌, length};
ghost use Rattle.lists.specs.Words.{elem, has};
ghost use Rattle.tables.specs.Refusal.{module_limit};
ghost use Rattle.tables.specs.Accepted.{Below};
ghost use Rattle.plan_conditions.specs.Conditions.{lowest, judged};
ghost use Rattle.plan_judgement.specs.inner.Checking.{Proposed};

use current_columns::inner::Current;
use lists::inner::fill;
use plan_conditions::Judgement;
use plan_conditions::inner::{lowest_lacking, name_first};
use rule_conditions::inner::{lacking_importer, lacking_member, lacking_reader, lacking_suffix};
use rule_sets::inner::{LabelSpace, RuleSpace, read_labels, read_sets};
use seeds::inner::mark_seeds;
use table::MODULE_LIMIT;

// The lowest eligible seed that a plan lacks, if there is one. `copy` is working space.
fn lacking_seed(seeds: &[u32], eligible: &[u32], plan: &[u32], copy: &mut [u32]) -> Option<u32>
    requires modules { length eligible.now ≡ length plan.now }
    requires copy { length copy.old ≡ length plan.now }
    requires seeds { Below (length plan.now) seeds.now }
    requires few { length plan.now ≤ module_limit }
    ensures { result ≡ lowest (λ (m : ℕ). (has eligible.now m && elem m seeds.now) && not (has plan.now m)) (length plan.now) }
{
    fill(copy, 0);
    mark_seeds(seeds, eligible, copy);
    lowest_lacking(copy, plan)
}

// What is said of a plan with seeds.
pub fn judge_plan(current: &Current, seeds: &[u32], plan: &[u32]) -> Judgement
    requires plan { Proposed current.now seeds.now plan.now }
    ensures { result ≡ judged current.now seeds.now plan.now }
{
    let mut label_space = LabelSpace::EMPTY;
    let labelled = read_labels(current, &mut label_space);
    let mut rule_space = RuleSpace::EMPTY;
    let sets = read_sets(&labelled, &mut rule_space);
    let mut copy = [0u32; MODULE_LIMIT];
    let copy = &mut copy[..current.modules()];
    let wrong = lowest_lacking(plan, labelled.sets.eligible);
    let seed = lacking_seed(seeds, labelled.sets.eligible, plan, copy);
    let suffix = lacking_suffix(&sets.rooted, plan, copy);
    let member = lacking_member(&labelled, plan, copy);
    let importer = lacking_importer(&sets.reached, &sets.imports, plan, copy);
    let reader = lacking_reader(&sets.reached, plan, copy);
    name_first(wrong, seed, suffix, member, importer, reader)
}
