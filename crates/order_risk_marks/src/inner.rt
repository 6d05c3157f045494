// For crates above, on tested tables: the order risk of an entry. No chunk is labelled.
ghost use Rattle.std.specs.Prelude.{◌≡◌, length};
ghost use Rattle.tables.specs.Readings.{modules};
ghost use Rattle.risk_of_orders.specs.inner.Steps.{join};
ghost use Rattle.at_risk.specs.Promise.{in_order_risk, order_risk_of_entry};
ghost use Rattle.at_risk.specs.inner.OverTable.{Marked};

use analysed_entries::inner::AnalysedEntry;
use at_risk::inner::add_entry_order_risk;
use expected_order::inner::find_expected;
use lists::inner::{count_marked, fill};
use module_sets::inner::{ModuleSets, SetSpace, read_module_sets};
use table::MODULE_LIMIT;
use visit_columns::inner::{VisitSpace, prepare_table};

// Adds the order risk of an entry to a set.
fn add_marked_order_risk(entry: &AnalysedEntry, sets: &ModuleSets, out: &mut [u32])
    requires sets { sets.now.current.now ≡ entry.now.current.now }
    requires places { length out.old ≡ modules entry.now.current.now }
    ensures { out.new ≡ join out.old (in_order_risk entry.now.current.now entry.now.root) }
{
    let mut expected = [0u32; MODULE_LIMIT];
    let expected = find_expected(entry.current, &mut expected, entry.root);
    let mut space = VisitSpace::EMPTY;
    let columns = prepare_table(entry.current, &mut space);
    add_entry_order_risk(entry, &columns, sets, expected, out);
}

// The order risk of an entry, as marks. How many are marked.
pub fn mark_order_risk(entry: &AnalysedEntry, out: &mut [u32]) -> usize
    requires places { length out.old ≡ modules entry.now.current.now }
    ensures { Marked (order_risk_of_entry entry.now.current.now entry.now.root) out.new result }
{
    let mut space = SetSpace::EMPTY;
    let sets = read_module_sets(entry.current, &mut space);
    fill(out, 0);
    add_marked_order_risk(entry, &sets, out);
    count_marked(out)
}
