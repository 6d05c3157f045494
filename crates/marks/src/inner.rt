// For crates above, on tested tables.
ghost use Rattle.std.specs.Prelude.{◌≡◌, ℕ, ◌<◌, true, false, length, slice_index_or};
ghost use Rattle.lists.specs.Words.{has};
ghost use Rattle.tables.specs.Project.{missing};
ghost use Rattle.tables.specs.Accepted.{Below};
ghost use Rattle.marks.specs.Steps.{looked, Raised, Owners, Added, InAll};

// The value at a place of a table, `other` where the table has no such place. The library's call with its promise
// as one equation, which proofs take; of other types and values for none there are `column_tests`, `name_order`, `merge_sort` and `replacement`.
pub fn value_at(table: &[u32], at: u32, other: u32) -> u32
    ensures { result ≡ slice_index_or table.now at other }
{
    table.get(at as usize).copied().unwrap_or(other)
}

// Raises the mark at a place to no less than `mark`. With no branch on the mark, which can't be predicted.
#[tactic(auto, using(crate::proofs::Steps::raising))]
pub fn raise(marks: &mut [u32], at: u32, mark: u32)
    requires { at < length marks.old }
    ensures { Raised at mark marks.old marks.new }
{
    let m = at as usize;
    marks[m] = mark.max(marks[m]);
}

// Writes each row's value in a table, `other` where the table has no such place.
#[tactic(auto, using(crate::proofs::Steps::looking))]
pub fn look_up(column: &[u32], table: &[u32], out: &mut [u32], other: u32)
    requires { length out.old ≡ length column.now }
    ensures { out.new ≡ looked other table.now column.now }
{
    for (row, value) in column.iter().enumerate() {
        out[row] = value_at(table, *value, other);
    }
}

// Marks the owners of the marked rows' values.
pub fn mark_rows(value: &[u32], owner: &[u32], rows: &[u32], marks: &mut [u32])
    requires rows { length rows.now ≡ length value.now }
    requires values { Below (length owner.now) value.now }
    requires owners { Below (length marks.old) owner.now }
    ensures { Owners (looked missing owner.now value.now) rows.now (length value.now) marks.old marks.new }
{
    for (at, mark) in value.iter().zip(rows) {
        raise(marks, owner[*at as usize], *mark);
    }
}

// Marks the owners of the rows whose value is in a set.
pub fn mark_owners(owner: &[u32], value: &[u32], set: &[u32], marks: &mut [u32])
    requires rows { length value.now ≡ length owner.now }
    requires values { Below (length set.now) value.now }
    requires owners { Below (length marks.old) owner.now }
    ensures { Owners owner.now (looked 0 set.now value.now) (length owner.now) marks.old marks.new }
{
    for (m, at) in owner.iter().zip(value) {
        raise(marks, *m, set[*at as usize]);
    }
}

// Adds what is in each of three sets. Whether any was new.
#[tactic(auto, using(crate::proofs::Turns::turns))]
pub fn add(first: &[u32], second: &[u32], third: &[u32], set: &mut [u32]) -> bool
    requires one { length first.now ≡ length set.old }
    requires two { length second.now ≡ length set.old }
    requires three { length third.now ≡ length set.old }
    ensures { Added (InAll first.now second.now third.now) set.old set.new result }
{
    let mut changed = false;
    for (m, mark) in set.iter_mut().enumerate() {
        if first[m] == 0 {
            continue;
        }
        if second[m] == 0 {
            continue;
        }
        if third[m] == 0 {
            continue;
        }
        if *mark != 0 {
            continue;
        }
        *mark = 1;
        changed = true;
    }
    changed
}

// Whether a member of two sets is out of a third.
#[tactic(auto, using(crate::proofs::Turns::shut))]
pub fn any_open(first: &[u32], second: &[u32], set: &[u32]) -> bool
    requires one { length first.now ≡ length set.now }
    requires two { length second.now ≡ length set.now }
    ensures { result ≡ false → (m : ℕ) → m < length set.now → has first.now m ≡ true → has second.now m ≡ true → has set.now m ≡ true }
{
    for (m, &mark) in set.iter().enumerate() {
        if second[m] != 0 && mark == 0 && first[m] != 0 {
            return true;
        }
    }
    false
}
