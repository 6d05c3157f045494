// For crates above, on tested tables.
ghost use Rattle.std.specs.Prelude.{◌≡◌, ◌+◌, ◌<◌, length, MatchOption};
ghost use Rattle.tables.specs.Refusal.{module_limit};
ghost use Rattle.visit_steps.specs.inner.Steps.{Spans, part, Passed, Entered, filling, fills};

// The counters of a traversal, lent to each visit: how many are placed, and the next number. Here the two are equal.
#[derive(Clone, Copy)]
pub struct ActualOrderTraversal {
    pub placed: usize,
    pub next: u32,
}

// The counters with one more placed.
fn one_more(before: ActualOrderTraversal) -> ActualOrderTraversal
    requires { (before.next ≡ before.placed) × (before.placed < module_limit) }
    ensures { (result.placed ≡ before.placed + 1) × (result.next ≡ result.placed) }
{
    ActualOrderTraversal {
        placed: before.placed + 1,
        next: before.next + 1,
    }
}

// The rows of a place, as a part of a column. `starts` has the places' first rows.
pub fn part<'a>(column: &'a [u32], starts: &'a [u32], m: u32) -> &'a [u32]
    requires { Spans starts.now (length column.now) (m + 1) }
    ensures { result.now ≡ part starts.now column.now m }
{
    let at = m as usize;
    let start = starts[at] as usize;
    let end = starts[at + 1] as usize;
    &column[start..end]
}

// Begins a visit: a place that was not met is marked, and its rows are to be followed, as a part of a column. A place that was met has none to follow.
pub fn enter<'a>(
    starts: &'a [u32],
    column: &'a [u32],
    marks: &mut [u32],
    m: u32,
) -> Option<&'a [u32]>
    requires { Spans starts.now (length column.now) (length marks.old) × (m < length marks.old) }
    ensures { MatchOption result (Passed marks.old m marks.new) (λ rows. Entered starts.now column.now marks.old m marks.new rows.now) }
{
    let at = m as usize;
    if marks[at] != 0 {
        return None;
    }
    marks[at] = 1;
    Some(part(column, starts, m))
}

// Ends a module's execution: it is listed, and its host noted, if that is another.
pub fn leave_module(
    order: &mut [u32],
    hosts: &mut [u32],
    m: u32,
    host: u32,
    before: ActualOrderTraversal,
) -> ActualOrderTraversal
    requires { (before.next ≡ before.placed) × (before.placed < length order.old) × (before.placed < module_limit) × (m < length hosts.old) }
    ensures { (filling order.new hosts.new result.placed ≡ fills host (filling order.old hosts.old before.placed) m) × (result.next ≡ result.placed) }
{
    let at = before.placed;
    order[at] = m;
    let after = one_more(before);
    if m == host {
        return after;
    }
    hosts[m as usize] = host;
    after
}
