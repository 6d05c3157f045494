// For crates above, on tested tables.
ghost use Rattle.std.specs.Prelude.{◌≡◌, length};
ghost use Rattle.tables.specs.Readings.{modules};
ghost use Rattle.chunk_cycles.specs.Cycles.{labels_of};
ghost use Rattle.wrap_rules.specs.inner.Passes.{candidate_marks};
ghost use Rattle.request_edges.specs.inner.Edges.{Room, Adds};
ghost use Rattle.request_edges.specs.inner.Lent.{edges_of, EdgesKept};
ghost use Rattle.request_graph.specs.inner.Requests.{ImportRows, ComponentEdge, ImportEdge, ChainEdge, ReadEdge, readers_of, SymbolEdge, Requests};

use current_columns::inner::Current;
use marks::inner::look_up;
use request_edges::inner::{EdgeList, number, number_chosen};
use rule_sets::inner::{LabelSets, ReachedSet};
use table::{MODULE_LIMIT, ROW_LIMIT};
use tables::ModuleIdx;

// The places of the graph: a planned module stands at its own number. From these numbers on stand, a module each, the request for it,
// "it is planned or leads to a planned module" and "it has a planned dependency"; then the labels, and the symbols' chains.
pub const REQUEST: u32 = 4096;

pub const LEAD: u32 = 8192;

pub const DEPENDENT: u32 = 12288;

pub const LABEL: u32 = 16384;

pub const CHAIN: u32 = 32768;

// How many places there are.
pub const NODES: usize = 49152;

// How many edges there can be.
pub const EDGES: usize = 155648;

// Adds the edges of rule (ii): from a module to its chunk's label, and from a label to the sensitive eligible members of its chunks.
#[tactic(auto, unfolding(current_columns::specs::AsProject::project))]
fn add_component_edges(labelled: &LabelSets, numbers: &[u32], asked: &[u32], edges: &mut EdgeList)
    requires modules { length numbers.now ≡ modules labelled.now }
    requires room { Room 20480 (edges_of edges.old) }
    ensures kept { EdgesKept edges.old edges.new }
    ensures adds { Adds (ComponentEdge labelled.now (labels_of labelled.now) numbers.now asked.now) 20480 (edges_of edges.old) (edges_of edges.new) }
{
    let columns = labelled.sets.current.columns();
    let labels = labelled.labels;
    let chunks = columns.member_chunk;
    edges.add_to_looked(numbers, columns.chunk, labels, 0, LABEL);
    edges.add_looked(chunks, labels, columns.member, asked, LABEL, REQUEST);
}

// Adds the edges of rule (iii): from a module to what leads to it by the import records, and to what depends on it.
#[tactic(auto, unfolding(current_columns::specs::AsProject::project))]
fn add_import_edges(
    current: &Current,
    from: &[u32],
    to: &[u32],
    numbers: &[u32],
    edges: &mut EdgeList,
)
    requires imports { ImportRows current.now from.now to.now }
    requires modules { length numbers.now ≡ modules current.now }
    requires room { Room 36864 (edges_of edges.old) }
    ensures kept { EdgesKept edges.old edges.new }
    ensures adds { Adds (ImportEdge current.now numbers.now) 36864 (edges_of edges.old) (edges_of edges.new) }
{
    let columns = current.columns();
    edges.add(numbers, numbers, 0, LEAD);
    edges.add(to, from, LEAD, LEAD);
    edges.add(columns.dependency, columns.dependency_module, 0, DEPENDENT);
}

// Adds the first edges of rule (iv): from a module to the chains of its symbols, and of those with a link that it owns.
#[tactic(auto, unfolding(current_columns::specs::AsProject::project))]
fn add_chain_edges(current: &Current, symbols: &[u32], edges: &mut EdgeList)
    requires room { Room 32768 (edges_of edges.old) }
    requires symbols { length symbols.now ≡ length current.now.owner }
    ensures kept { EdgesKept edges.old edges.new }
    ensures adds { Adds (ChainEdge current.now symbols.now) 32768 (edges_of edges.old) (edges_of edges.new) }
{
    let columns = current.columns();
    edges.add(columns.owner, symbols, 0, CHAIN);
    edges.add_from_looked(
        columns.chain_link,
        columns.owner,
        columns.chain_symbol,
        0,
        CHAIN,
    );
}

// Writes each reference's module, where that is a candidate that reads at the top level, else the mark.
#[tactic(auto, unfolding(current_columns::specs::AsProject::project))]
fn find_readers(reached: &ReachedSet, readers: &mut [u32])
    requires { length readers.old ≡ length reached.now.reference_statement }
    ensures { readers.new ≡ readers_of reached.now (candidate_marks reached.now) }
{
    let columns = reached.current.columns();
    let mut reading = [0u32; MODULE_LIMIT];
    let mut modules = [0u32; ROW_LIMIT];
    let reading = &mut reading[..columns.normal.len()];
    let modules = &mut modules[..columns.reference_statement.len()];
    number_chosen(reached.candidates, columns.reads, reading);
    look_up(
        columns.reference_statement,
        columns.statement_module,
        modules,
        ModuleIdx::MISSING,
    );
    look_up(modules, reading, readers, ModuleIdx::MISSING);
}

// Adds the last edges of rule (iv): from the chain of a symbol, or of its canonical, to the readers of the references that name it.
#[tactic(auto, unfolding(current_columns::specs::AsProject::project))]
fn add_read_edges(current: &Current, readers: &[u32], edges: &mut EdgeList)
    requires room { Room 65536 (edges_of edges.old) }
    requires readers { length readers.now ≡ length current.now.reference_statement }
    ensures kept { EdgesKept edges.old edges.new }
    ensures adds { Adds (ReadEdge current.now readers.now) 65536 (edges_of edges.old) (edges_of edges.new) }
{
    let columns = current.columns();
    let symbols = columns.reference_symbol;
    let canonical = columns.canonical;
    edges.add(symbols, readers, CHAIN, REQUEST);
    edges.add_from_looked(symbols, canonical, readers, CHAIN, REQUEST);
    let depended = columns.depended;
    let references = columns.depended_reference;
    edges.add_to_looked(depended, references, readers, CHAIN, REQUEST);
    edges.add_looked(depended, canonical, references, readers, CHAIN, REQUEST);
}

// Adds the edges of rule (iv).
#[tactic(auto, unfolding(current_columns::specs::AsProject::project))]
fn add_symbol_edges(reached: &ReachedSet, edges: &mut EdgeList)
    requires room { Room 98304 (edges_of edges.old) }
    ensures kept { EdgesKept edges.old edges.new }
    ensures adds { Adds (SymbolEdge reached.now (candidate_marks reached.now)) 98304 (edges_of edges.old) (edges_of edges.new) }
{
    let current = reached.current;
    let columns = current.columns();
    let mut names = [0u32; ROW_LIMIT];
    let mut readers = [0u32; ROW_LIMIT];
    let names = &mut names[..columns.owner.len()];
    let readers = &mut readers[..columns.reference_statement.len()];
    number(names);
    add_chain_edges(current, names, edges);
    find_readers(reached, readers);
    add_read_edges(current, readers, edges);
}

// Adds the edges of a table, of whose import records `from` and `to` have the importers and the targets.
pub fn request_edges(
    labelled: &LabelSets,
    reached: &ReachedSet,
    from: &[u32],
    to: &[u32],
    edges: &mut EdgeList,
)
    requires same { reached.now ≡ labelled.now }
    requires imports { ImportRows labelled.now from.now to.now }
    requires room { Room 155648 (edges_of edges.old) }
    ensures kept { EdgesKept edges.old edges.new }
    ensures requests { Requests labelled.now (edges_of edges.old) (edges_of edges.new) }
{
    let current = labelled.sets.current;
    let n = current.modules();
    let mut numbers = [0u32; MODULE_LIMIT];
    let mut asked = [0u32; MODULE_LIMIT];
    let numbers = &mut numbers[..n];
    let asked = &mut asked[..n];
    number(numbers);
    number_chosen(labelled.sets.sensitive, labelled.sets.eligible, asked);
    add_component_edges(labelled, numbers, asked, edges);
    add_import_edges(current, from, to, numbers, edges);
    add_symbol_edges(reached, edges);
}
