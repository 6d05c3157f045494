// What makes a plan acceptable: its form, and six conditions in their order.
#![tactic(auto)]

pub mod inner;

// What is said of a plan: it is accepted; or the number of the first broken condition, from 1 on (eligible, seeds, rules (i) to (iv)), and the lowest
// module that is wrong or lacking.
// The condition is a number, as the scope counts them and a caller in C gets them.
// No Option, whose None would be the good answer; and no Result, whose `?` would hand a broken plan on among the refusals, though it is judged and not refused.
#[derive(Clone, Copy)]
pub enum Judgement {
    Accepted,
    Broken(u32, u32),
}

impl Judgement {
    ghost use Rattle.std.specs.Prelude.{◌≡◌};
    ghost use Rattle.plan_conditions.specs.Conditions.{judgement_number};

    // Its number: 0 where the plan is accepted, else the broken condition's times 2^16 plus the module.
    pub fn number(self) -> u64
        ensures { result ≡ judgement_number self }
    {
        match self {
            Judgement::Accepted => 0,
            Judgement::Broken(condition, module) => condition as u64 * 65536 + module as u64,
        }
    }
}
