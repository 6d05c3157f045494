// For crates above, on columns that fit and on tested tables.
ghost use Rattle.std.specs.Prelude.{◌≡◌, ℕ, true, false, ◌⊎◌, length, ◌≢◌, slice_index};
ghost use Rattle.lists.specs.Words.{has};
ghost use Rattle.tables.specs.Accepted.{Below};
ghost use Rattle.marks.specs.Steps.{Added, Marks};
ghost use Rattle.read_rule.specs.inner.Reads.{ChainTouch, SymbolTouch, ReferenceTouch, Touching, Reader, Linking, Symbols, Depending, Reading, TopLevelRead, ReadPassed};
ghost use Rattle.wrap_rules.specs.inner.Passes.{Marked};

use current_columns::inner::Columns;
use marks::inner::{add, any_open, look_up, mark_owners, mark_rows};
use rule_sets::inner::ReachedSet;
use table::{MODULE_LIMIT, ROW_LIMIT};

// Marks the symbols whose owner is planned, or a link owner in whose chain. `owners` is working space: the symbols whose owner is planned.
#[tactic(auto, using(crate::proofs::Marking::chains_marked), unfolding(current_columns::specs::AsProject::project))]
fn mark_chains(columns: &Columns, plan: &[u32], owners: &mut [u32], chains: &mut [u32])
    requires room { length owners.old ≡ length columns.now.owner }
    requires rows { length chains.old ≡ length columns.now.owner }
    requires links { Linking columns.now.chain_symbol columns.now.chain_link (length columns.now.owner) }
    ensures { Marks (ChainTouch columns.now.owner columns.now.chain_symbol columns.now.chain_link plan.now) chains.new }
{
    look_up(columns.owner, plan, owners, 0);
    chains.copy_from_slice(owners);
    mark_owners(columns.chain_symbol, columns.chain_link, owners, chains);
}

// Marks the symbols that are in a set or have their canonical there.
#[tactic(auto, unfolding(current_columns::specs::AsProject::project))]
fn mark_canonicals(columns: &Columns, chains: &[u32], symbols: &mut [u32])
    requires rows { length chains.now ≡ length symbols.old }
    requires canonicals { length columns.now.canonical ≡ length symbols.old }
    requires inside { Below (length chains.now) columns.now.canonical }
    ensures { Marks (λ y. (has chains.now y ≡ true) ⊎ (has chains.now (slice_index columns.now.canonical y) ≡ true)) symbols.new }
{
    let canonical = columns.canonical;
    for (y, mark) in symbols.iter_mut().enumerate() {
        *mark = chains[y].max(chains[canonical[y] as usize]);
    }
}

// Marks the symbols that touch the plan, by themselves or by their canonical.
#[tactic(auto, using(crate::proofs::Marking::symbols_marked), unfolding(current_columns::specs::AsProject::project))]
fn mark_symbols(columns: &Columns, plan: &[u32], symbols: &mut [u32])
    requires columns { Symbols columns.now }
    requires rows { length symbols.old ≡ length columns.now.owner }
    ensures { Marks (SymbolTouch columns.now.owner columns.now.canonical columns.now.chain_symbol columns.now.chain_link plan.now) symbols.new }
{
    let mut chains = [0u32; ROW_LIMIT];
    let chains = &mut chains[..columns.owner.len()];
    mark_chains(columns, plan, symbols, chains);
    mark_canonicals(columns, chains, symbols);
}

// Marks the references to a symbol that touches the plan, or with a depended one.
#[tactic(auto, using(crate::proofs::Marking::references_marked), unfolding(current_columns::specs::AsProject::project))]
fn mark_references(columns: &Columns, symbols: &[u32], references: &mut [u32])
    requires symbols { length symbols.now ≡ length columns.now.owner }
    requires rows { length references.old ≡ length columns.now.reference_symbol }
    requires depends { Depending columns.now }
    ensures { Marks (ReferenceTouch columns.now.reference_symbol columns.now.depended_reference columns.now.depended symbols.now) references.new }
{
    look_up(columns.reference_symbol, symbols, references, 0);
    mark_owners(
        columns.depended_reference,
        columns.depended,
        symbols,
        references,
    );
}

// Marks the references that touch the plan.
#[tactic(auto, unfolding(current_columns::specs::AsProject::project))]
fn mark_touching(columns: &Columns, plan: &[u32], references: &mut [u32])
    requires columns { Symbols columns.now }
    requires rows { length references.old ≡ length columns.now.reference_symbol }
    requires depends { Depending columns.now }
    ensures { Marks (Touching columns.now.owner columns.now.canonical columns.now.chain_symbol columns.now.chain_link columns.now.reference_symbol columns.now.depended_reference columns.now.depended plan.now) references.new }
{
    let mut symbols = [0u32; ROW_LIMIT];
    let symbols = &mut symbols[..columns.owner.len()];
    mark_symbols(columns, plan, symbols);
    mark_references(columns, symbols, references);
}

// Marks the modules of the statements with a marked reference, included or not.
#[tactic(auto, using(crate::proofs::Marking::readers_marked), unfolding(current_columns::specs::AsProject::project))]
fn mark_readers(columns: &Columns, references: &[u32], readers: &mut [u32])
    requires rows { length references.now ≡ length columns.now.reference_statement }
    requires statements { Below (length columns.now.statement_module) columns.now.reference_statement }
    requires modules { Below (length readers.old) columns.now.statement_module }
    requires none { (m : ℕ) → has readers.old m ≢ true }
    ensures { Marks (Reader columns.now.statement_module columns.now.reference_statement references.now) readers.new }
{
    mark_rows(
        columns.reference_statement,
        columns.statement_module,
        references,
        readers,
    );
}

// One pass of rule (iv) over the candidates, the reached eligible modules. Whether any module was added.
#[tactic(auto, unfolding(current_columns::specs::AsProject::project))]
pub fn close_top_level_readers(columns: &Columns, candidates: &[u32], plan: &mut [u32]) -> bool
    requires symbols { Symbols columns.now }
    requires columns { Reading columns.now candidates.now (length plan.old) }
    ensures { Added (TopLevelRead columns.now.reads columns.now.statement_module columns.now.owner columns.now.canonical columns.now.chain_symbol columns.now.chain_link columns.now.reference_statement columns.now.reference_symbol columns.now.depended_reference columns.now.depended candidates.now plan.old) plan.old plan.new result }
{
    if !any_open(columns.reads, candidates, plan) {
        return false;
    }
    let mut references = [0u32; ROW_LIMIT];
    let mut readers = [0u32; MODULE_LIMIT];
    let references = &mut references[..columns.reference_statement.len()];
    let readers = &mut readers[..plan.len()];
    mark_touching(columns, plan, references);
    mark_readers(columns, references, readers);
    add(readers, columns.reads, candidates, plan)
}

// The pass over a table. Whether any module was added.
pub fn pass_readers(reached: &ReachedSet, plan: &mut [u32]) -> bool
    requires { Marked reached.now plan.old }
    ensures { ReadPassed reached.now plan.old plan.new result }
{
    let columns = reached.current.columns();
    close_top_level_readers(columns, reached.candidates, plan)
}
