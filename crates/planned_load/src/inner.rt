// For crates above, on tested tables.
ghost use Rattle.std.specs.Prelude.{◌≡◌, ◌≤◌, length};
ghost use Rattle.tables.specs.Readings.{modules};
ghost use Rattle.visit_columns.specs.inner.OverTable.{PreparedAs};
ghost use Rattle.entry_run.specs.Actual.{read_as_two};
ghost use Rattle.entry_run.specs.inner.Cores.{Listed};
ghost use Rattle.entry_run.specs.inner.OverTable.{Listing};
ghost use Rattle.planned_load.specs.Steps.{planned_run, step_of};
ghost use Rattle.planned_load.specs.inner.Stepping.{Stepped};

use crate::LoadStep;
use analysed_entries::inner::AnalysedEntry;
use current_columns::inner::Current;
use entry_run::inner::list_prepared;
use table::MODULE_LIMIT;
use visit_columns::inner::{VisitColumns, VisitSpace, prepare_wrapped};
use wraps_and_hosts::inner::{name_hosts, own_host, read_as_two};

// Makes the columns that the visits read, of a table with a plan's modules wrapped.
fn prepare_planned<'a>(
    current: &Current,
    plan: &[u32],
    space: &'a mut VisitSpace,
) -> VisitColumns<'a>
    requires plan { length plan.now ≡ modules current.now }
    ensures { PreparedAs current.now (read_as_two plan.now current.now.wrap) result }
{
    let modules = current.modules();
    let columns = current.columns();
    let mut wraps = [0u32; MODULE_LIMIT];
    let wraps = &mut wraps[..modules];
    read_as_two(plan, columns.wrap, wraps);
    prepare_wrapped(current, wraps, space)
}

// The run of an entry with a plan's modules wrapped: its list written to `order` from place 0, and the noted hosts, a place a
// module. How many are listed.
fn list_planned(entry: &AnalysedEntry, plan: &[u32], order: &mut [u32], noted: &mut [u32]) -> usize
    requires plan { length plan.now ≡ modules entry.now.current.now }
    requires places { Listing entry.now.current.now (length order.old) (length noted.old) }
    ensures { Listed (planned_run entry.now.current.now plan.now entry.now.root) order.old order.new noted.new result }
{
    let mut space = VisitSpace::EMPTY;
    let columns = prepare_planned(entry.current, plan, &mut space);
    list_prepared(entry, &columns, order, noted)
}

// A step of an entry's load with a plan, by its number; none where none is left.
pub fn step_planned(entry: &AnalysedEntry, plan: &[u32], number: u32) -> Option<LoadStep>
    requires plan { length plan.now ≡ modules entry.now.current.now }
    ensures { result ≡ step_of entry.now.current.now plan.now entry.now.root number }
{
    let modules = entry.current.modules();
    let mut order = [0u32; MODULE_LIMIT];
    let mut noted = [0u32; MODULE_LIMIT];
    let noted = &mut noted[..modules];
    let count = list_planned(entry, plan, &mut order, noted);
    let at = number as usize;
    if count <= at {
        return None;
    }
    let module = order[at];
    Some(LoadStep {
        module,
        host: own_host(noted, module),
    })
}

// The steps of an entry's load with a plan: their modules written to `steps` from place 0, and their hosts to `hosts`. How many there
// are.
pub fn run_planned(
    entry: &AnalysedEntry,
    plan: &[u32],
    steps: &mut [u32],
    hosts: &mut [u32],
) -> usize
    requires plan { length plan.now ≡ modules entry.now.current.now }
    requires rooms { (modules entry.now.current.now ≤ length steps.old) × (modules entry.now.current.now ≤ length hosts.old) }
    ensures { Stepped entry.now.current.now plan.now entry.now.root steps.old hosts.old steps.new hosts.new result }
{
    let modules = entry.current.modules();
    let mut noted = [0u32; MODULE_LIMIT];
    let noted = &mut noted[..modules];
    let count = list_planned(entry, plan, steps, noted);
    name_hosts(&steps[..count], noted, hosts);
    count
}
