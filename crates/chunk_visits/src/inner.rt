// For crates above, on tested tables. `columns` has what the visits read, and `member` is the table's own column, whose rows `member_starts` parts by chunks.
ghost use Rattle.std.specs.Prelude.{◌≡◌, [], ◌∷◌, length};
ghost use Rattle.walk.specs.Walk.{Visits, everywhere};
ghost use Rattle.tables.specs.Accepted.{Below};
ghost use Rattle.module_visits.specs.inner.Visits.{executing};
ghost use Rattle.chunk_visits.specs.inner.Visits.{loads_of, ran_members, Visitable, Ran};

use module_visits::inner::execute_members;
use tables::ModuleIdx;
use visit_columns::inner::VisitColumns;
use visit_steps::inner::{ActualOrderTraversal, enter, part};

// Visits a chunk: marks it, visits the chunks that it loads, and then executes its members with wrap 0. The counters go on into their executions.
fn visit_actual_chunk(
    columns: &VisitColumns,
    member: &[u32],
    chunk_marks: &mut [u32],
    marks: &mut [u32],
    order: &mut [u32],
    hosts: &mut [u32],
    c: u32,
    traversal: &mut ActualOrderTraversal,
)
    requires { Visitable columns.now member.now chunk_marks.old marks.old order.old hosts.old c traversal.old }
    ensures { Visits (loads_of columns.now) everywhere (ran_members columns.now member.now) (record { marks = chunk_marks.old; made = executing marks.old order.old hosts.old traversal.old.placed }) (c ∷ []) (record { marks = chunk_marks.new; made = executing marks.new order.new hosts.new traversal.new.placed }) × (traversal.new.next ≡ traversal.new.placed) }
{
    let Some(rows) = enter(columns.load_starts, columns.loads, chunk_marks, c) else {
        return;
    };
    for &load in rows {
        if load == ModuleIdx::MISSING {
            continue;
        }
        // asked here too, since most rows of many chunks lead to one that was met
        if chunk_marks[load as usize] != 0 {
            continue;
        }
        visit_actual_chunk(
            columns,
            member,
            chunk_marks,
            marks,
            order,
            hosts,
            load,
            traversal,
        );
    }
    let own = part(member, columns.member_starts, c);
    execute_members(
        columns.ways,
        columns.starts,
        columns.triggers,
        own,
        marks,
        order,
        hosts,
        1,
        traversal,
    );
}

// Visits a chunk, and last executes those of some modules whose wrap is not 0. The counters are lent to both, and handed back.
pub fn visit_and_execute(
    columns: &VisitColumns,
    member: &[u32],
    last: &[u32],
    chunk_marks: &mut [u32],
    marks: &mut [u32],
    order: &mut [u32],
    hosts: &mut [u32],
    c: u32,
    before: ActualOrderTraversal,
) -> ActualOrderTraversal
    requires { Visitable columns.now member.now chunk_marks.old marks.old order.old hosts.old c before × Below (length marks.old) last.now }
    ensures { Ran columns.now member.now c last.now chunk_marks.old (executing marks.old order.old hosts.old before.placed) chunk_marks.new (executing marks.new order.new hosts.new result.placed) }
{
    let mut traversal = before;
    visit_actual_chunk(
        columns,
        member,
        chunk_marks,
        marks,
        order,
        hosts,
        c,
        &mut traversal,
    );
    execute_members(
        columns.ways,
        columns.starts,
        columns.triggers,
        last,
        marks,
        order,
        hosts,
        2,
        &mut traversal,
    );
    traversal
}
