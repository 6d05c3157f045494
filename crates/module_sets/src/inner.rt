// For crates above: the two sets of modules that risks and rules read, of a tested table.
ghost use Rattle.std.specs.Prelude.{◌≡◌};
ghost use Rattle.module_sets.specs.inner.Sets.{Sets};

use current_columns::inner::Current;
use eligibility::inner::mark_eligible;
use sensitivity::inner::mark_sensitive;
use table::MODULE_LIMIT;

// Room for their marks.
#[derive(Drop)]
pub struct SetSpace {
    sensitive: [u32; MODULE_LIMIT],
    eligible: [u32; MODULE_LIMIT],
}

impl SetSpace {
    pub const EMPTY: SetSpace = SetSpace {
        sensitive: [0; MODULE_LIMIT],
        eligible: [0; MODULE_LIMIT],
    };
}

// The marks of a table's sensitive and of its eligible modules.
#[derive(Clone, Copy)]
pub struct ModuleSets<'a, 'c> {
    pub current: &'a Current<'c>,
    pub sensitive: &'a [u32],
    pub eligible: &'a [u32],
    pub ghost sets: { Sets current.now sensitive.now eligible.now },
}

// Makes them of a table.
#[tactic(auto, using(sensitivity::proofs::Fits::fits, eligibility::proofs::Fits::kinds_fit))]
pub fn read_module_sets<'a, 'c>(
    current: &'a Current<'c>,
    space: &'a mut SetSpace,
) -> ModuleSets<'a, 'c>
    ensures { result.current.now ≡ current.now }
{
    let n = current.modules();
    let columns = current.columns();
    let sensitive = &mut space.sensitive;
    let sensitive = &mut sensitive[..n];
    mark_sensitive(columns, sensitive);
    let eligible = &mut space.eligible;
    let eligible = &mut eligible[..n];
    mark_eligible(columns, eligible);
    ModuleSets {
        current,
        sensitive,
        eligible,
    }
}
