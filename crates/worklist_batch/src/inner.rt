// For crates above, on tested tables.
ghost use Rattle.std.specs.Prelude.{◌≡◌, ℕ, ◌+◌, length, replicate};
ghost use Rattle.suffix_places.specs.inner.Places.{never};
ghost use Rattle.worklist_taking.specs.inner.State.{Batch};
ghost use Rattle.worklist_batch.specs.inner.Noting.{NoteRoom, Led, Noting};

mod advancing;

pub use advancing::advance;
use lists::inner::fill;
use rule_sets::inner::RootSets;
use suffix_places::inner::{NEVER, lower_entries};
use threads::inner::{Threads, thread};

// What is noted for rule (i), in lent slices: the settled roots, and of each module the number of takings after which the rule asks for it, threaded.
// Contracts see it without the threads, by `notes_of`; that these are right is a fact of the type.
#[derive(Drop)]
pub struct Notes<'a, 'b, 'c, 'd> {
    pub settled: &'a mut [u32],
    pub asked: &'b mut [u32],
    pub heads: &'c mut [u32],
    pub nexts: &'d mut [u32],
    pub ghost led: { Led asked.now heads.now nexts.now },
}

impl<'a, 'b, 'c, 'd> Notes<'a, 'b, 'c, 'd> {
    ghost use Rattle.worklist_batch.specs.inner.Lent.{notes_of, NotesLed, NotesKept};

    // The rule asks for nothing; `settled` is as it is lent.
    pub fn new(
        settled: &'a mut [u32],
        asked: &'b mut [u32],
        heads: &'c mut [u32],
        nexts: &'d mut [u32],
    ) -> Notes<'a, 'b, 'c, 'd>
        requires { NoteRoom asked.old heads.old nexts.old }
        ensures settled { result.settled.ghost_name ≡ settled.entry.ghost_name }
        ensures asked { result.asked.ghost_name ≡ asked.entry.ghost_name }
        ensures heads { result.heads.ghost_name ≡ heads.entry.ghost_name }
        ensures nexts { result.nexts.ghost_name ≡ nexts.entry.ghost_name }
        ensures led { NotesLed result }
        ensures empty { notes_of result ≡ record { settled = settled.old; asked = replicate (length asked.old) never } }
    {
        fill(asked, NEVER);
        thread(asked, heads, nexts);
        Notes {
            settled,
            asked,
            heads,
            nexts,
        }
    }

    // The modules by the number of takings.
    pub fn threads<'e>(&'e self) -> Threads<'e>
        ensures { result ≡ record { values = (notes_of self.now).asked; places = never + 1 } }
    {
        Threads {
            column: self.asked,
            heads: self.heads,
            nexts: self.nexts,
        }
    }

    // Notes after how many takings the rule asks for each module, for all that are listed.
    fn note(&mut self, rooted: &RootSets, placed: &[u32])
        requires noting { Noting rooted.now placed.now (notes_of self.old) }
        ensures kept { NotesKept self.old self.new }
        ensures batch { (end : ℕ) → Batch rooted.now placed.now (notes_of self.new) end }
    {
        // one by one: Rattle doesn't cover a call with two fields of `self`
        let settled = &mut *self.settled;
        let after = &mut *self.asked;
        let heads = &mut *self.heads;
        let nexts = &mut *self.nexts;
        fill(after, NEVER);
        let RootSets { sets, roots } = *rooted;
        lower_entries(
            sets.current,
            roots,
            sets.sensitive,
            sets.eligible,
            placed,
            settled,
            after,
        );
        thread(after, heads, nexts);
    }
}
