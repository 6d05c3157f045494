// For crates above, on tested tables.
ghost use Rattle.std.specs.Prelude.{◌≡◌, length, replicate};
ghost use mathlib.Core.List.{foldl};
ghost use Rattle.tables.specs.Project.{missing};
ghost use Rattle.tables.specs.Readings.{modules};
ghost use Rattle.visit_columns.specs.inner.OverTable.{Prepared};
ghost use Rattle.visit_steps.specs.inner.Steps.{filling};
ghost use Rattle.module_visits.specs.inner.Visits.{executing, hosted};
ghost use Rattle.chunk_visits.specs.inner.Visits.{triggers_of};
ghost use Rattle.entry_run.specs.Actual.{run_of};
ghost use Rattle.entry_run.specs.inner.Cores.{turns, Runnable, Listed};
ghost use Rattle.entry_run.specs.inner.OverTable.{Listing, PreparedSome, ListedAs};

use analysed_entries::inner::AnalysedEntry;
use chunk_visits::inner::visit_and_execute;
use lists::inner::fill;
use table::{CHUNK_LIMIT, MODULE_LIMIT};
use tables::ModuleIdx;
use visit_columns::inner::{VisitColumns, VisitSpace, prepare_table};
use visit_steps::inner::ActualOrderTraversal;

// The visits of a root whose entry chunk is given, by the columns that they read. No module is met before, and no host noted. How many are listed.
// Marks, order and hosts are plain slices from here on: a rule of the project asks for that beside the counters that the visits lend on.
fn actual_order_for_root(
    columns: &VisitColumns,
    member: &[u32],
    order: &mut [u32],
    hosts: &mut [u32],
    chunks: usize,
    root: u32,
    chunk: u32,
) -> usize
    requires { Runnable columns.now member.now order.old hosts.old chunks root chunk }
    ensures { (foldl (hosted (triggers_of columns.now)) (executing (replicate (length hosts.old) 0) order.old (replicate (length hosts.old) missing) 0) (turns columns.now member.now chunks root chunk)).made ≡ filling order.new hosts.new result }
{
    let mut marks = [0u32; MODULE_LIMIT];
    let marks = &mut marks[..hosts.len()];
    let mut chunk_marks = [0u32; CHUNK_LIMIT];
    let chunk_marks = &mut chunk_marks[..chunks];
    fill(hosts, ModuleIdx::MISSING);
    let none = ActualOrderTraversal { placed: 0, next: 0 };
    let last = [root; 1];
    let all = visit_and_execute(
        columns,
        member,
        &last,
        chunk_marks,
        marks,
        order,
        hosts,
        chunk,
        none,
    );
    all.placed
}

// The run of an entry of a table with the wraps that `columns` were made with: its list written to `order` from place 0, and
// its hosts, a place a module. How many are listed. Both are lent by the operation, here and below; a value of the
// two would be taken apart by the one visit that writes them.
#[tactic(auto, unfolding(current_columns::specs::AsProject::project))]
pub fn list_prepared(
    entry: &AnalysedEntry,
    columns: &VisitColumns,
    order: &mut [u32],
    hosts: &mut [u32],
) -> usize
    requires prepared { PreparedSome entry.now.current.now columns.now }
    requires places { Listing entry.now.current.now (length order.old) (length hosts.old) }
    ensures { ListedAs entry.now.current.now columns.now entry.now.root order.old order.new hosts.new result }
{
    let current = entry.current;
    let read = current.columns();
    let chunks = read.order.len();
    actual_order_for_root(
        columns,
        read.member,
        order,
        hosts,
        chunks,
        entry.root,
        entry.chunk,
    )
}

// The actual order of an entry of a table, written to `order` from place 0, and its hosts, a place a module. `columns` are
// those that the visits read with the table's wraps. How many are listed.
pub fn list_actual(
    entry: &AnalysedEntry,
    columns: &VisitColumns,
    order: &mut [u32],
    hosts: &mut [u32],
) -> usize
    requires prepared { Prepared entry.now.current.now columns.now }
    requires places { Listing entry.now.current.now (length order.old) (length hosts.old) }
    ensures { Listed (run_of entry.now.current.now entry.now.current.now.wrap entry.now.root) order.old order.new hosts.new result }
{
    list_prepared(entry, columns, order, hosts)
}

// The actual order of an entry of a table, and its hosts. How many are listed.
pub fn prepare_and_list(entry: &AnalysedEntry, order: &mut [u32], hosts: &mut [u32]) -> usize
    requires places { Listing entry.now.current.now (length order.old) (length hosts.old) }
    ensures { Listed (run_of entry.now.current.now entry.now.current.now.wrap entry.now.root) order.old order.new hosts.new result }
{
    let mut space = VisitSpace::EMPTY;
    let columns = prepare_table(entry.current, &mut space);
    list_actual(entry, &columns, order, hosts)
}
