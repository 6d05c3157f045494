// The answers of the operations as the numbers that callers from C get: the count, or 2^32 plus the number of a refusal; of the check of a plan
// 0, the number of a broken condition times 2^16 plus the module, or 2^32 plus the number of a refusal; of a step of a tried load its module times 2^16 plus
// its host, 2^31 where none is left, or 2^32 plus the number of a refusal.
#![tactic(auto)]

ghost use Rattle.std.specs.Prelude.{◌≡◌};
ghost use Rattle.answer_codes.specs.Exported.{coded, coded_judgement, coded_refusal, coded_step};

use plan_conditions::Judgement;
use planned_load::LoadStep;
use tables::Refusal;

// A refusal as a number.
fn refusal_code(refusal: Refusal) -> u64
    ensures { result ≡ coded_refusal refusal }
{
    4294967296 + refusal.number() as u64
}

// An answer as a number.
pub fn code(answer: Result<usize, Refusal>) -> u64
    ensures { result ≡ coded answer }
{
    match answer {
        Ok(count) => count as u64,
        Err(refusal) => refusal_code(refusal),
    }
}

// What is said of a plan, as a number.
pub fn judgement_code(judgement: Result<Judgement, Refusal>) -> u64
    ensures { result ≡ coded_judgement judgement }
{
    match judgement {
        Ok(judgement) => judgement.number(),
        Err(refusal) => refusal_code(refusal),
    }
}

// A step of a tried load as a number.
pub fn step_code(step: Result<Option<LoadStep>, Refusal>) -> u64
    ensures { result ≡ coded_step step }
{
    match step {
        Ok(Some(LoadStep { module, host })) => module as u64 * 65536 + host as u64,
        Ok(None) => 2147483648,
        Err(refusal) => refusal_code(refusal),
    }
}
