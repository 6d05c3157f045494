// For crates above: what the four rules read of a tested table.
ghost use Rattle.std.specs.Prelude.{◌≡◌};

use chunk_cycles::inner::label_table;
use current_columns::inner::Current;
use import_edges::inner::list_edges;
use lists::inner::fill;
use module_sets::inner::{ModuleSets, SetSpace, read_module_sets};
use reached_modules::inner::{choose_candidates, list_roots};
use std::marker::Model;
use strong_connection::inner::Digraph;
use table::{CHUNK_LIMIT, MODULE_LIMIT, ROW_LIMIT};

// Room for the labels and marks.
#[derive(Drop)]
pub struct LabelSpace {
    labels: [u32; CHUNK_LIMIT],
    sets: SetSpace,
}

impl LabelSpace {
    pub const EMPTY: LabelSpace = LabelSpace {
        labels: [0; CHUNK_LIMIT],
        sets: SetSpace::EMPTY,
    };
}

// Room for the roots, the reached modules and the import records.
#[derive(Drop)]
pub struct RuleSpace {
    roots: [u32; MODULE_LIMIT],
    candidates: [u32; MODULE_LIMIT],
    from: [u32; ROW_LIMIT],
    to: [u32; ROW_LIMIT],
    heads: [u32; MODULE_LIMIT],
    nexts: [u32; ROW_LIMIT],
}

impl RuleSpace {
    pub const EMPTY: RuleSpace = RuleSpace {
        roots: [0; MODULE_LIMIT],
        candidates: [0; MODULE_LIMIT],
        from: [0; ROW_LIMIT],
        to: [0; ROW_LIMIT],
        heads: [0; MODULE_LIMIT],
        nexts: [0; ROW_LIMIT],
    };
}

// The chunks' labels of a table, and the marks of its sensitive and of its eligible modules: what rule (ii) reads. Contracts see the project that they are of, here and below.
#[derive(Drop)]
pub struct LabelSets<'a, 'c> {
    pub sets: ModuleSets<'a, 'c>,
    pub labels: &'a [u32],
}

impl<'a, 'c> Model for LabelSets<'a, 'c> {
    ghost use Rattle.tables.specs.Project.{Project};

    ghost Value = { Project };

    ghost use Rattle.rule_sets.specs.inner.View.{labelled_of, AreLabelled};

    ghost view = { labelled_of };

    ghost invariant = { AreLabelled };
}

// The roots of a table's analysed entries, with the same marks: what rule (i) asks by.
#[derive(Drop)]
pub struct RootSets<'a, 'c> {
    pub sets: ModuleSets<'a, 'c>,
    pub roots: &'a [u32],
}

impl<'a, 'c> Model for RootSets<'a, 'c> {
    ghost use Rattle.tables.specs.Project.{Project};

    ghost Value = { Project };

    ghost use Rattle.rule_sets.specs.inner.View.{rooted_of, AreRooted};

    ghost view = { rooted_of };

    ghost invariant = { AreRooted };
}

// The marks of the eligible modules that the roots reach: the candidates of rules (iii) and (iv).
#[derive(Drop)]
pub struct ReachedSet<'a, 'c> {
    pub current: &'a Current<'c>,
    pub candidates: &'a [u32],
}

impl<'a, 'c> Model for ReachedSet<'a, 'c> {
    ghost use Rattle.tables.specs.Project.{Project};

    ghost Value = { Project };

    ghost use Rattle.rule_sets.specs.inner.View.{reached_of, AreReached};

    ghost view = { reached_of };

    ghost invariant = { AreReached };
}

// What the four rules read of a table: these, and the import records as edges from target to importer.
#[derive(Drop)]
pub struct RuleSets<'a, 'c> {
    pub labelled: LabelSets<'a, 'c>,
    pub rooted: RootSets<'a, 'c>,
    pub reached: ReachedSet<'a, 'c>,
    pub imports: Digraph<'a>,
}

impl<'a, 'c> Model for RuleSets<'a, 'c> {
    ghost use Rattle.tables.specs.Project.{Project};

    ghost Value = { Project };

    ghost use Rattle.rule_sets.specs.inner.View.{project_of, AreJoined};

    ghost view = { project_of };

    ghost invariant = { AreJoined };
}

// Makes the labels and marks of a table.
pub fn read_labels<'a, 'c>(current: &'a Current<'c>, space: &'a mut LabelSpace) -> LabelSets<'a, 'c>
    ensures { result ≡ current.now }
{
    let labels = &mut space.labels;
    let labels = &mut labels[..current.chunks()];
    label_table(current, labels);
    let sets = read_module_sets(current, &mut space.sets);
    LabelSets { sets, labels }
}

// Makes all that the rules read.
pub fn read_sets<'a, 'c>(labelled: &LabelSets<'a, 'c>, space: &'a mut RuleSpace) -> RuleSets<'a, 'c>
    ensures { result ≡ labelled.now }
{
    let sets = labelled.sets;
    let current = sets.current;
    let n = current.modules();
    let roots = &mut space.roots;
    let columns = current.columns();
    let count = list_roots(columns, roots);
    let roots = &roots[..count];
    let from = &mut space.from;
    let to = &mut space.to;
    let edges = list_edges(columns, from, to);
    let from = &from[..edges];
    let to = &to[..edges];
    let candidates = &mut space.candidates;
    let candidates = &mut candidates[..n];
    fill(candidates, 0);
    choose_candidates(current, from, to, roots, sets.eligible, candidates);
    let heads = &mut space.heads;
    let heads = &mut heads[..n];
    let nexts = &mut space.nexts;
    let imports = Digraph::new(to, from, heads, nexts);
    RuleSets {
        labelled: LabelSets { ..*labelled },
        rooted: RootSets { sets, roots },
        reached: ReachedSet {
            current,
            candidates,
        },
        imports,
    }
}
