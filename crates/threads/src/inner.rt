// For crates above, on tested tables: look-ups of the rows of a value.
ghost use Rattle.std.specs.Prelude.{◌≡◌, ◌<◌, length};
ghost use Rattle.std.specs.Iterator.{YieldsFirst, item_count};
ghost use Rattle.tables.specs.Readings.{rows_of};
ghost use Rattle.tables.specs.Accepted.{Below};
ghost use Rattle.threads.specs.inner.Rows.{Threadable, Threaded};

use std::marker::Model;

// Threads the rows of each value: `heads` gets its first row, `nexts` the next row of the same value, or the end.
#[tactic(auto, using(crate::proofs::Threading::thread_steps))]
pub fn thread(column: &[u32], heads: &mut [u32], nexts: &mut [u32])
    requires { Threadable column.now heads.old nexts.old }
    ensures { Threaded column.now heads.new nexts.new }
{
    heads.fill(column.len() as u32);
    for (row, value) in column.iter().enumerate().rev() {
        let m = *value as usize;
        nexts[row] = heads[m];
        heads[m] = row as u32;
    }
}

// The rows of each value of a column, threaded. Contracts see the column, and how many values have a place.
#[derive(Drop)]
pub struct Threads<'a> {
    pub column: &'a [u32],
    pub heads: &'a [u32],
    pub nexts: &'a [u32],
}

impl<'a> Model for Threads<'a> {
    ghost use Rattle.std.specs.Prelude.{length};
    ghost use Rattle.threads.specs.inner.Rows.{Column, Threaded};

    ghost Value = { Column };

    ghost view = { λ t. record { values = t.column.now; places = length t.heads.now } };

    ghost invariant = { λ t. Threaded t.column.now t.heads.now t.nexts.now };
}

impl<'a> Threads<'a> {
    // Makes them in two slices.
    pub fn new(column: &'a [u32], heads: &'a mut [u32], nexts: &'a mut [u32]) -> Threads<'a>
        requires { Threadable column.now heads.old nexts.old }
        ensures { result ≡ record { values = column.now; places = length heads.old } }
    {
        thread(column, heads, nexts);
        Threads {
            column,
            heads,
            nexts,
        }
    }

    // The rows of a value, in order.
    pub fn rows<'b>(&'b self, value: u32) -> Rows<'b>
        requires { value < self.now.places }
        ensures list { result ≡ rows_of self.now.values value }
        ensures there { Below (length self.now.values) result }
    {
        Rows {
            column: self.column,
            nexts: self.nexts,
            value,
            row: self.heads[value as usize] as usize,
        }
    }
}

// The rows of a value that are left. Contracts see them as a list.
#[derive(Drop)]
pub struct Rows<'a> {
    column: &'a [u32],
    nexts: &'a [u32],
    value: u32,
    row: usize,
}

impl<'a> Model for Rows<'a> {
    ghost use Rattle.std.specs.Prelude.{ℕ, List};
    ghost use Rattle.threads.specs.inner.Rows.{rows_from, Standing};

    ghost Value = { List ℕ };

    ghost view = { λ r. rows_from r.column.now r.value r.row };

    ghost invariant = { λ r. Standing r.column.now r.nexts.now r.value r.row };
}

impl<'a> Iterator for Rows<'a> {
    type Item = usize;

    ghost next_gives = { YieldsFirst (λ rows. rows) };

    ghost remaining = { item_count (λ rows. rows) };

    fn next(&mut self) -> Option<usize> {
        let row = self.row;
        if self.column.len() <= row {
            return None;
        }
        self.row = self.nexts[row] as usize;
        Some(row)
    }
}
