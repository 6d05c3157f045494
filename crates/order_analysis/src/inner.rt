// For crates above, on tested tables.
ghost use Rattle.std.specs.Prelude.{◌≡◌, length};
ghost use Rattle.lists.specs.Words.{ones, marks_of};
ghost use Rattle.tables.specs.Readings.{modules};
ghost use Rattle.risk_of_orders.specs.inner.Steps.{join};
ghost use Rattle.order_analysis.specs.Promise.{whole_plan};
ghost use Rattle.visit_columns.specs.inner.OverTable.{Prepared};
ghost use Rattle.chunk_cycles.specs.Cycles.{labels_of};
ghost use Rattle.wrap_rules.specs.Plan.{roots as roots_of};
ghost use Rattle.order_analysis.specs.inner.Analysis.{risks_of};

use analysed_entries::inner::find_entry;
use at_risk::inner::add_entry_risk;
use current_columns::inner::Current;
use lists::inner::{count_marked, fill};
use module_sets::inner::ModuleSets;
use plan_rounds::inner::build_order_wrap_plan;
use reached_modules::inner::list_roots;
use rule_sets::inner::{LabelSets, LabelSpace, read_labels};
use seeds::inner::mark_table_seeds;
use table::MODULE_LIMIT;
use visit_columns::inner::{VisitColumns, VisitSpace, prepare_table};

// Adds the risk of each root to a set. `columns` are those that the visits read, `labels` the chunks' labels.
fn add_risks(
    current: &Current,
    roots: &[u32],
    columns: &VisitColumns,
    labels: &[u32],
    sets: &ModuleSets,
    out: &mut [u32],
)
    requires roots { roots.now ≡ roots_of current.now }
    requires prepared { Prepared current.now columns.now }
    requires labels { labels.now ≡ labels_of current.now }
    requires sets { sets.now.current.now ≡ current.now }
    requires places { length out.old ≡ modules current.now }
    ensures { out.new ≡ join out.old (risks_of current.now) }
{
    for root in roots {
        if let Some(entry) = find_entry(current, *root) {
            add_entry_risk(&entry, columns, labels, sets, out);
        }
    }
}

// Marks the risks of the analysed entries, and nothing else. Its arrays are gone before the rules' are made, so that the stack is that of one of the two.
#[inline(never)]
fn mark_risks(labelled: &LabelSets, out: &mut [u32])
    requires { length out.old ≡ modules labelled.now }
    ensures { out.new ≡ marks_of (risks_of labelled.now) (modules labelled.now) }
{
    let LabelSets { sets, labels } = *labelled;
    let current = sets.current;
    let mut visit_space = VisitSpace::EMPTY;
    let columns = prepare_table(current, &mut visit_space);
    let mut roots = [0u32; MODULE_LIMIT];
    let count = list_roots(current.columns(), &mut roots);
    fill(out, 0);
    add_risks(current, &roots[..count], &columns, labels, &sets, out);
}

// Adds the eligible seed rows to the marked risks, and closes them under the rules.
#[inline(never)]
fn plan_risks(labelled: &LabelSets, plan: &mut [u32])
    requires { plan.old ≡ marks_of (risks_of labelled.now) (modules labelled.now) }
    ensures { plan.new ≡ whole_plan labelled.now }
{
    let sets = labelled.sets;
    mark_table_seeds(sets.current, sets.eligible, plan);
    build_order_wrap_plan(labelled, plan);
}

// The plan of the whole analysis, as marks. How many are marked. The labels and sets are made once, for the risks and the rules.
pub fn analyze(current: &Current, plan: &mut [u32]) -> usize
    requires places { length plan.old ≡ modules current.now }
    ensures plan { plan.new ≡ whole_plan current.now }
    ensures count { result ≡ ones (whole_plan current.now) }
{
    let mut space = LabelSpace::EMPTY;
    let labelled = read_labels(current, &mut space);
    mark_risks(&labelled, plan);
    plan_risks(&labelled, plan);
    count_marked(plan)
}
