// For crates above, on columns that fit and on tested tables.
ghost use Rattle.std.specs.Prelude.{◌≡◌, length};
ghost use Rattle.marks.specs.Steps.{Added};
ghost use Rattle.import_edges.specs.inner.Spread.{Spreads, Spreadable};
ghost use Rattle.rule_sets.specs.inner.Sets.{Edged};
ghost use Rattle.wrap_rules.specs.inner.Passes.{Marked};
ghost use Rattle.import_rule.specs.inner.Imports.{Importer, Importing, Leading, ImportPassed};

use current_columns::inner::Columns;
use import_edges::inner::spread;
use marks::inner::{add, mark_owners};
use rule_sets::inner::ReachedSet;
use strong_connection::inner::Digraph;
use table::MODULE_LIMIT;

// One pass of rule (iii) over the candidates, the reached eligible modules. `imports` has the kind 0 records from target to importer. Whether any module was added.
// `leads` has what leads to an earlier, smaller plan, so that a pass visits only from what is newly planned.
#[tactic(auto, unfolding(current_columns::specs::AsProject::project))]
pub fn close_static_importers(
    columns: &Columns,
    imports: &Digraph,
    candidates: &[u32],
    leads: &mut [u32],
    plan: &mut [u32],
) -> bool
    requires columns { Importing columns.now imports.now.from candidates.now (length plan.old) }
    requires leads { Spreadable imports.now plan.old leads.old }
    ensures leads { Spreads imports.now.from imports.now.to plan.old leads.new }
    ensures plan { Added (Importer imports.now.to imports.now.from columns.now.dependency_module columns.now.dependency candidates.now plan.old leads.new) plan.old plan.new result }
{
    let n = imports.places();
    let mut leading = [0u32; MODULE_LIMIT];
    let mut dependents = [0u32; MODULE_LIMIT];
    let leading = &mut leading[..n];
    let dependents = &mut dependents[..n];
    spread(imports, plan, leads);
    mark_owners(imports.to(), imports.from(), leads, leading);
    mark_owners(
        columns.dependency_module,
        columns.dependency,
        plan,
        dependents,
    );
    add(leading, dependents, candidates, plan)
}

// The pass over a table and the edges of its import records. Whether any module was added.
pub fn pass_importers(
    reached: &ReachedSet,
    imports: &Digraph,
    leads: &mut [u32],
    plan: &mut [u32],
) -> bool
    requires edges { Edged reached.now imports.now }
    requires plan { Marked reached.now plan.old }
    requires leads { Leading reached.now leads.old plan.old }
    ensures { ImportPassed reached.now plan.old leads.new plan.new result }
{
    let columns = reached.current.columns();
    close_static_importers(columns, imports, reached.candidates, leads, plan)
}
