// For crates above, on tested tables.
ghost use Rattle.std.specs.Prelude.{◌≡◌, ◌≢◌, ℕ, ◌<◌, true, false, length, slice_index, MatchOption};
ghost use Rattle.tables.specs.Project.{missing};
ghost use Rattle.tables.specs.Readings.{flagged, values_of, first_of, is_analysed};
ghost use Rattle.analysed_entries.specs.inner.Entries.{Entry, ReadFrom};

use current_columns::inner::Current;
use tables::ModuleIdx;

// Whether a module is included.
fn is_included(included: &[u32], m: u32) -> bool
    ensures { result ≡ flagged included.now m }
{
    matches!(included.get(m as usize), Some(1))
}

// The first row of an entry, if it has one.
fn row_of(entry: &[u32], root: u32) -> Option<usize>
    ensures { MatchOption result ((k : ℕ) → k < length entry.now → slice_index entry.now k ≢ root) (λ row. (row < length entry.now) × (slice_index entry.now row ≡ root) × ((k : ℕ) → k < row → slice_index entry.now k ≢ root)) }
{
    entry.iter().position(|e| *e == root)
}

// The entry chunk of an entry; none if there is no such entry or it has none.
#[tactic(auto, using(crate::proofs::Roots::finding))]
fn entry_chunk_of(entry: &[u32], entry_chunk: &[u32], root: u32) -> Option<u32>
    requires { length entry_chunk.now ≡ length entry.now }
    ensures { MatchOption result (first_of (values_of entry.now entry_chunk.now root) ≡ missing) (λ chunk. (first_of (values_of entry.now entry_chunk.now root) ≡ chunk) × (chunk ≢ missing)) }
{
    let chunk = entry_chunk[row_of(entry, root)?];
    if chunk == ModuleIdx::MISSING {
        return None;
    }
    Some(chunk)
}

// An analysed entry of a table: a root, and its entry chunk.
#[derive(Drop)]
pub struct AnalysedEntry<'a, 'c> {
    pub current: &'a Current<'c>,
    pub root: u32,
    pub chunk: u32,
    pub ghost entry: { Entry current.now root chunk },
}

impl<'a, 'c> AnalysedEntry<'a, 'c> {
    // The same entry, of its table with other import records, dependencies and members: entries are found before a table is read and arranged.
    #[tactic(auto, using(crate::proofs::AsRead::keeping))]
    pub fn as_read<'b, 'd>(&self, current: &'b Current<'d>) -> AnalysedEntry<'b, 'd>
        requires { ReadFrom self.now.current.now current.now }
        ensures table { result.current.now ≡ current.now }
        ensures root { result.root ≡ self.now.root }
        ensures analysed { is_analysed current.now self.now.root ≡ is_analysed self.now.current.now self.now.root }
    {
        AnalysedEntry {
            current,
            root: self.root,
            chunk: self.chunk,
        }
    }
}

// The entry chunk of a root that is an analysed entry, none for any other.
#[tactic(auto, using(crate::proofs::Roots::analysing), unfolding(current_columns::specs::AsProject::project, tables::specs::Readings::entry_chunk_of))]
fn find_chunk(current: &Current, root: u32) -> Option<u32>
    ensures { MatchOption result (is_analysed current.now root ≡ false) (λ chunk. (is_analysed current.now root ≡ true) × Entry current.now root chunk) }
{
    let columns = current.columns();
    if !is_included(columns.included, root) {
        return None;
    }
    entry_chunk_of(columns.entry, columns.entry_chunk, root)
}

// The analysed entry that a root is, none for any other root.
pub fn find_entry<'a, 'c>(current: &'a Current<'c>, root: u32) -> Option<AnalysedEntry<'a, 'c>>
    ensures { MatchOption result (is_analysed current.now root ≡ false) (λ entry. (is_analysed current.now root ≡ true) × (entry.current.now ≡ current.now) × (entry.root ≡ root)) }
{
    let chunk = find_chunk(current, root)?;
    Some(AnalysedEntry {
        current,
        root,
        chunk,
    })
}
