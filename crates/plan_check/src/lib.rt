// Plans made elsewhere: whether one is accepted, or what it breaks first.
#![tactic(auto)]

ghost use Rattle.std.specs.Prelude.{◌≡◌};
ghost use Rattle.table.specs.Lending.{as_lent};
ghost use Rattle.plan_check.specs.Promise.{judgement};

use current_columns::inner::ReadSpace;
use plan_conditions::Judgement;
use plan_conditions::inner::plan_fits;
use plan_judgement::inner::judge_plan;
use refusal::read_tested;
use seeds::inner::seeds_fit;
use table::Table;
use tables::Refusal;

// Whether a plan, 0 or 1 for each module, has only eligible modules, holds the eligible seeds and is closed under the four rules.
#[tactic(auto, unfolding(crate::specs::Promise::judgement))]
pub fn check_plan(table: &Table, seeds: &[u32], plan: &[u32]) -> Result<Judgement, Refusal>
    ensures { result ≡ judgement (as_lent table.now) seeds.now plan.now }
{
    let mut space = ReadSpace::EMPTY;
    let current = read_tested(table, &mut space)?;
    let n = current.modules();
    if !seeds_fit(seeds, n) {
        return Err(Refusal::Argument);
    }
    if !plan_fits(plan, n) {
        return Err(Refusal::PlanForm);
    }
    let judgement = judge_plan(&current, seeds, plan);
    Ok(judgement)
}
