// For crates above, on columns that fit and on tested tables.
ghost use Rattle.std.specs.Prelude.{◌≡◌, true, length};
ghost use Rattle.lists.specs.Words.{has};
ghost use Rattle.tables.specs.Project.{missing};
ghost use Rattle.wrap_rules.specs.inner.Passes.{Marked};
ghost use Rattle.marks.specs.Steps.{looked, Owners, Added};
ghost use Rattle.component_rule.specs.inner.Members.{Together, Members, ComponentPassed};

use current_columns::inner::Columns;
use lists::inner::count_marked;
use marks::inner::{add, look_up, mark_owners, raise, value_at};
use rule_sets::inner::LabelSets;
use table::{CHUNK_LIMIT, MODULE_LIMIT};
use tables::ModuleIdx;

// Marks the labels of the planned modules' chunks, where they have a place.
fn mark_labels(chunk: &[u32], labels: &[u32], plan: &[u32], hits: &mut [u32])
    requires { length plan.now ≡ length chunk.now }
    ensures { Owners (looked missing labels.now chunk.now) plan.now (length chunk.now) hits.old hits.new }
{
    for (m, &at) in chunk.iter().enumerate() {
        let label = value_at(labels, at, ModuleIdx::MISSING);
        if hits.len() <= label as usize {
            continue;
        }
        raise(hits, label, plan[m]);
    }
}

// One pass of rule (ii), with any sets. Whether any module was added.
#[tactic(auto, unfolding(current_columns::specs::AsProject::project))]
pub fn close_cyclic_chunk_members(
    columns: &Columns,
    labels: &[u32],
    sensitive: &[u32],
    eligible: &[u32],
    plan: &mut [u32],
) -> bool
    requires { Members columns.now labels.now sensitive.now eligible.now (length plan.old) }
    ensures { Added (λ m. Together columns.now.chunk columns.now.member_chunk columns.now.member labels.now plan.old m × (has sensitive.now m ≡ true) × (has eligible.now m ≡ true)) plan.old plan.new result }
{
    let mut hits = [0u32; CHUNK_LIMIT];
    let mut chunks = [0u32; CHUNK_LIMIT];
    let mut marks = [0u32; MODULE_LIMIT];
    let hits = &mut hits[..labels.len()];
    let chunks = &mut chunks[..labels.len()];
    let marks = &mut marks[..plan.len()];
    mark_labels(columns.chunk, labels, plan, hits);
    if count_marked(hits) == 0 {
        return false;
    }
    // the chunks that have these labels, and then their members
    look_up(labels, hits, chunks, 0);
    mark_owners(columns.member, columns.member_chunk, chunks, marks);
    add(marks, sensitive, eligible, plan)
}

// The pass over a table. Whether any module was added.
pub fn pass_members(labelled: &LabelSets, plan: &mut [u32]) -> bool
    requires { Marked labelled.now plan.old }
    ensures { ComponentPassed labelled.now plan.old plan.new result }
{
    let columns = labelled.sets.current.columns();
    close_cyclic_chunk_members(
        columns,
        labelled.labels,
        labelled.sets.sensitive,
        labelled.sets.eligible,
        plan,
    )
}
