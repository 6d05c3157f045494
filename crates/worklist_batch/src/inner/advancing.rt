// From one batch to the next.
ghost use Rattle.std.specs.Prelude.{◌≡◌, ℕ, ◌<◌, true, false, length, ◌≢◌, slice_index};
ghost use Rattle.lists.specs.Words.{has};
ghost use Rattle.tables.specs.Accepted.{Below};
ghost use Rattle.request_queue.specs.inner.Lent.{listing};
ghost use Rattle.worklist_batch.specs.inner.Noting.{Batching, Advanced};
ghost use Rattle.worklist_batch.specs.inner.Lent.{notes_of, NotesKept};

use super::Notes;
use marks::inner::any_open;
use request_queue::inner::Queue;
use rule_sets::inner::{ReachedSet, RootSets};

// Whether a module of a list is sensitive.
fn any_sensitive(part: &[u32], sensitive: &[u32]) -> bool
    requires { Below (length sensitive.now) part.now }
    ensures { result ≡ false → (i : ℕ) → i < length part.now → has sensitive.now (slice_index part.now i) ≢ true }
{
    // tried, the proof of `any` didn't close
    for &m in part {
        if sensitive[m as usize] != 0 {
            return true;
        }
    }
    false
}

// Where place k starts a new batch, notes what rule (i) asks for: nothing new where none of the batch is sensitive, or every sensitive candidate is listed.
// The place where the batch ends.
pub fn advance(
    rooted: &RootSets,
    reached: &ReachedSet,
    list: &Queue,
    notes: &mut Notes,
    k: usize,
    end: usize,
) -> usize
    requires same { reached.now ≡ rooted.now }
    requires batch { Batching rooted.now (listing list.now) (notes_of notes.old) k end }
    ensures kept { NotesKept notes.old notes.new }
    ensures advanced { Advanced rooted.now (listing list.now) k (notes_of notes.new) result }
{
    if k < end {
        return end;
    }
    let count = list.len();
    if !any_sensitive(list.since(end), rooted.sets.sensitive) {
        return count;
    }
    if !any_open(rooted.sets.sensitive, reached.candidates, list.marks()) {
        return count;
    }
    notes.note(rooted, list.marks());
    count
}
