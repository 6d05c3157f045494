// For crates above, on tested tables: the risk of an entry.
ghost use Rattle.std.specs.Prelude.{◌≡◌, length};
ghost use Rattle.lists.specs.Words.{has};
ghost use Rattle.visit_columns.specs.inner.OverTable.{Prepared};
ghost use Rattle.tables.specs.Readings.{modules};
ghost use Rattle.entry_run.specs.Actual.{actual_of, hosts_of};
ghost use Rattle.chunk_cycles.specs.Cycles.{labels_of, reaches_cycle_of};
ghost use Rattle.chunk_cycles.specs.inner.OverTable.{Reaching};
ghost use Rattle.sensitivity.specs.Marks.{sensitive};
ghost use Rattle.eligibility.specs.Eligible.{eligible, eligible_marks};
ghost use Rattle.risk_of_orders.specs.Risk.{order_risk, cycle_risk};
ghost use Rattle.risk_of_orders.specs.inner.Steps.{join};
ghost use Rattle.at_risk.specs.Promise.{risk_of_entry};
ghost use Rattle.at_risk.specs.inner.OverTable.{Placed};

use analysed_entries::inner::AnalysedEntry;
use chunk_cycles::inner::reaches_table;
use current_columns::inner::Current;
use entry_run::inner::list_actual;
use expected_order::inner::find_expected;
use module_sets::inner::ModuleSets;
use risk_of_orders::inner::{RiskColumns, add_cycle_risk, add_order_risk};
use table::MODULE_LIMIT;
use visit_columns::inner::VisitColumns;

// Adds the order risk of an entry whose expected order is given to a set, which stands beside what is read, here and below; sets
// are made once for all entries, so they stay apart from one. `columns` are those that the visits read.
pub fn add_entry_order_risk(
    entry: &AnalysedEntry,
    columns: &VisitColumns,
    sets: &ModuleSets,
    expected: &[u32],
    out: &mut [u32],
)
    requires prepared { Prepared entry.now.current.now columns.now }
    requires sets { sets.now.current.now ≡ entry.now.current.now }
    requires placed { Placed entry.now.current.now expected.now (length out.old) }
    ensures { out.new ≡ join out.old (order_risk (sensitive entry.now.current.now) (eligible entry.now.current.now) expected.now (actual_of entry.now.current.now entry.now.root) (hosts_of entry.now.current.now entry.now.root)) }
{
    let mut actual = [0u32; MODULE_LIMIT];
    let mut hosts = [0u32; MODULE_LIMIT];
    let hosts = &mut hosts[..entry.current.modules()];
    let count = list_actual(entry, columns, &mut actual, hosts);
    let risk_columns = RiskColumns {
        hosts,
        sensitive: sets.sensitive,
        eligible: sets.eligible,
    };
    add_order_risk(expected, &actual[..count], &risk_columns, out);
}

// Adds the cycle risk of an entry whose expected order is given to a set, by the chunks' labels.
pub fn add_entry_cycle_risk(
    current: &Current,
    labels: &[u32],
    eligibles: &[u32],
    expected: &[u32],
    out: &mut [u32],
    chunk: u32,
)
    requires labels { Reaching current.now labels.now chunk }
    requires eligibles { eligibles.now ≡ eligible_marks current.now }
    requires placed { Placed current.now expected.now (length out.old) }
    ensures { out.new ≡ join out.old (cycle_risk (eligible current.now) expected.now (reaches_cycle_of current.now chunk)) }
{
    let reaches_cycle = reaches_table(current, labels, chunk);
    add_cycle_risk(expected, eligibles, out, reaches_cycle);
}

// Adds the risk of an entry to a set. `columns` are those that the visits read, `labels` the chunks' labels. They stay apart from the sets, as the order
// risk alone is made without labels, and the cycle risk without columns.
pub fn add_entry_risk(
    entry: &AnalysedEntry,
    columns: &VisitColumns,
    labels: &[u32],
    sets: &ModuleSets,
    out: &mut [u32],
)
    requires prepared { Prepared entry.now.current.now columns.now }
    requires labels { labels.now ≡ labels_of entry.now.current.now }
    requires sets { sets.now.current.now ≡ entry.now.current.now }
    requires places { length out.old ≡ modules entry.now.current.now }
    ensures { out.new ≡ join out.old (has (risk_of_entry entry.now.current.now entry.now.root)) }
{
    let mut expected = [0u32; MODULE_LIMIT];
    let expected = find_expected(entry.current, &mut expected, entry.root);
    add_entry_order_risk(entry, columns, sets, expected, out);
    add_entry_cycle_risk(
        entry.current,
        labels,
        sets.eligible,
        expected,
        out,
        entry.chunk,
    );
}
