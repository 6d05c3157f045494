// For crates above, on tested tables.
ghost use Rattle.std.specs.Prelude.{◌≡◌, ℕ, ◌≤◌, not, ◌&&◌, [], ◌∷◌, length};
ghost use Rattle.lists.specs.Words.{has};
ghost use Rattle.tables.specs.Refusal.{module_limit};
ghost use Rattle.plan_conditions.specs.Form.{plan_fits};
ghost use Rattle.plan_conditions.specs.Conditions.{lowest, first_broken};

use crate::Judgement;

// Whether a plan is one mark, 0 or 1, for each of n modules.
pub fn plan_fits(plan: &[u32], n: usize) -> bool
    ensures { result ≡ plan_fits n plan.now }
{
    if plan.len() != n {
        return false;
    }
    plan.iter().all(|&mark| mark <= 1)
}

// The lowest member of one set that is out of another, if there is one.
pub fn lowest_lacking(asked: &[u32], held: &[u32]) -> Option<u32>
    requires rows { length held.now ≡ length asked.now }
    requires few { length asked.now ≤ module_limit }
    ensures { result ≡ lowest (λ (m : ℕ). has asked.now m && not (has held.now m)) (length asked.now) }
{
    for (m, &mark) in asked.iter().enumerate() {
        if mark != 0 && held[m] == 0 {
            return Some(m as u32);
        }
    }
    None
}

// The first of six modules that there is, with its number.
pub fn name_first(
    eligible: Option<u32>,
    seed: Option<u32>,
    suffix: Option<u32>,
    member: Option<u32>,
    importer: Option<u32>,
    reader: Option<u32>,
) -> Judgement
    ensures { result ≡ first_broken 1 (eligible ∷ seed ∷ suffix ∷ member ∷ importer ∷ reader ∷ []) }
{
    if let Some(m) = eligible {
        return Judgement::Broken(1, m);
    }
    if let Some(m) = seed {
        return Judgement::Broken(2, m);
    }
    if let Some(m) = suffix {
        return Judgement::Broken(3, m);
    }
    if let Some(m) = member {
        return Judgement::Broken(4, m);
    }
    if let Some(m) = importer {
        return Judgement::Broken(5, m);
    }
    if let Some(m) = reader {
        return Judgement::Broken(6, m);
    }
    Judgement::Accepted
}
