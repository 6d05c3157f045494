// For crates above, on tested tables: the cycle risk of an entry. No actual order is made.
ghost use Rattle.std.specs.Prelude.{◌≡◌, length};
ghost use Rattle.tables.specs.Readings.{modules};
ghost use Rattle.eligibility.specs.Eligible.{eligible_marks};
ghost use Rattle.risk_of_orders.specs.inner.Steps.{join};
ghost use Rattle.at_risk.specs.Promise.{in_cycle_risk, cycle_risk_of_entry};
ghost use Rattle.at_risk.specs.inner.OverTable.{Marked};

use analysed_entries::inner::AnalysedEntry;
use at_risk::inner::add_entry_cycle_risk;
use chunk_cycles::inner::label_table;
use eligibility::inner::mark_eligible;
use expected_order::inner::find_expected;
use lists::inner::{count_marked, fill};
use table::{CHUNK_LIMIT, MODULE_LIMIT};

// Adds the cycle risk of an entry to a set, by the marks of the eligible modules.
fn add_marked_cycle_risk(entry: &AnalysedEntry, eligibles: &[u32], out: &mut [u32])
    requires eligibles { eligibles.now ≡ eligible_marks entry.now.current.now }
    requires places { length out.old ≡ modules entry.now.current.now }
    ensures { out.new ≡ join out.old (in_cycle_risk entry.now.current.now entry.now.root) }
{
    let current = entry.current;
    let mut expected = [0u32; MODULE_LIMIT];
    let expected = find_expected(current, &mut expected, entry.root);
    let mut labels = [0u32; CHUNK_LIMIT];
    let labels = &mut labels[..current.chunks()];
    label_table(current, labels);
    add_entry_cycle_risk(current, labels, eligibles, expected, out, entry.chunk);
}

// The cycle risk of an entry, as marks. How many are marked.
#[tactic(auto, using(eligibility::proofs::Fits::kinds_fit))]
pub fn mark_cycle_risk(entry: &AnalysedEntry, out: &mut [u32]) -> usize
    requires places { length out.old ≡ modules entry.now.current.now }
    ensures { Marked (cycle_risk_of_entry entry.now.current.now entry.now.root) out.new result }
{
    let current = entry.current;
    let mut eligibles = [0u32; MODULE_LIMIT];
    let eligibles = &mut eligibles[..current.modules()];
    mark_eligible(current.columns(), eligibles);
    fill(out, 0);
    add_marked_cycle_risk(entry, eligibles, out);
    count_marked(out)
}
