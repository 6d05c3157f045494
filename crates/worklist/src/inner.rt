// For crates above, on tested tables.
ghost use Rattle.std.specs.Prelude.{◌≡◌, ◌≤◌, length};
ghost use Rattle.tables.specs.Readings.{modules};
ghost use Rattle.tables.specs.Accepted.{Below};
ghost use Rattle.request_queue.specs.inner.Lent.{listing, Kept};
ghost use Rattle.worklist_taking.specs.inner.State.{GraphOf};
ghost use Rattle.worklist_batch.specs.inner.Lent.{notes_of, NotesKept};
ghost use Rattle.worklist.specs.inner.Taking.{Fresh, TakenAll};

use request_queue::inner::Queue;
use rule_sets::inner::{ReachedSet, RootSets};
use strong_connection::inner::Digraph;
use worklist_batch::inner::{Notes, advance};
use worklist_ends::inner::list_seeds;
use worklist_step::inner::step;

// Lists the eligible seeds, then takes the modules of the list in turn until all are taken. `lengths` gets the length of the list after each number of takings
// but the last, from none on. How many there are. Seeds, list and lengths are the caller's, and each is asked for something else, so a value of them would only move the clauses.
pub fn take_all(
    rooted: &RootSets,
    reached: &ReachedSet,
    graph: &Digraph,
    seeds: &[u32],
    met: &mut Queue,
    list: &mut Queue,
    notes: &mut Notes,
    lengths: &mut [u32],
) -> usize
    requires same { reached.now ≡ rooted.now }
    requires graph { GraphOf rooted.now graph.now }
    requires seeds { Below (modules rooted.now) seeds.now }
    requires fresh { Fresh rooted.now (listing met.old) (listing list.old) (notes_of notes.old) }
    requires room { modules rooted.now ≤ length lengths.old }
    ensures met { Kept met.old met.new }
    ensures list { Kept list.old list.new }
    ensures notes { NotesKept notes.old notes.new }
    ensures taken { TakenAll rooted.now seeds.now (listing list.new).marks (listing list.new).list lengths.old lengths.new result }
{
    list_seeds(seeds, rooted.sets.eligible, list);
    let mut end = 0;
    let mut k = 0;
    // the list grows while it is read
    while k < list.len() {
        end = advance(rooted, reached, list, notes, k, end);
        let listed = list.len();
        lengths[k] = listed as u32;
        step(
            graph,
            reached.candidates,
            rooted.sets.eligible,
            &notes.threads(),
            met,
            list,
            k,
        );
        k += 1;
    }
    list.len()
}
