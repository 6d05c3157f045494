// For crates above, on tested tables: directed graphs as rows of two columns, and marks of what a place of one reaches.
ghost use Rattle.std.specs.Prelude.{◌≡◌, ◌<◌, ◌≤◌, length};
ghost use Rattle.std.specs.Iterator.{YieldsFirst, item_count};
ghost use Rattle.lists.specs.Words.{any, has};
ghost use Rattle.tables.specs.Project.{missing};
ghost use Rattle.tables.specs.Accepted.{Below};
ghost use Rattle.strong_connection.specs.inner.Graph.{Graph, successors};
ghost use Rattle.strong_connection.specs.inner.Marking.{Marked, reach_marks};

use std::marker::Model;
use threads::inner::{Rows, Threads};

// A directed graph: the rows of two columns as edges, threaded by their sources. Contracts see the columns, and how many places it has.
// Targets are places; a source need not be one. The fields are open: any threaded columns may be lent as a graph.
#[derive(Drop)]
pub struct Digraph<'a> {
    pub sources: Threads<'a>,
    pub to: &'a [u32],
    pub places: usize,
}

impl<'a> Model for Digraph<'a> {
    ghost use Rattle.strong_connection.specs.inner.Graph.{EdgeColumns, Linked};

    ghost Value = { EdgeColumns };

    ghost view = { λ g. record { from = g.sources.values; to = g.to.now; places = g.places } };

    ghost invariant = { λ g. Linked g.sources.values g.to.now g.places g.sources.places };
}

impl<'a> Digraph<'a> {
    // Makes one with a place for each head, with its threads in two slices.
    pub fn new(
        from: &'a [u32],
        to: &'a [u32],
        heads: &'a mut [u32],
        nexts: &'a mut [u32],
    ) -> Digraph<'a>
        requires graph { Graph from.now to.now (length heads.old) }
        requires few { length from.now ≤ missing }
        requires room { length from.now ≤ length nexts.old }
        ensures { result ≡ record { from = from.now; to = to.now; places = length heads.old } }
    {
        let places = heads.len();
        Digraph {
            sources: Threads::new(from, heads, nexts),
            to,
            places,
        }
    }

    // How many places it has.
    pub fn places(&self) -> usize
        ensures count { result ≡ self.now.places }
        ensures lengths { length self.now.to ≡ length self.now.from }
        ensures inside { Below self.now.places self.now.to }
    {
        self.places
    }

    // The sources of its edges.
    pub fn from(&self) -> &'a [u32]
        ensures { result.now ≡ self.now.from }
    {
        self.sources.column
    }

    // The targets of its edges.
    pub fn to(&self) -> &'a [u32]
        ensures { result.now ≡ self.now.to }
    {
        self.to
    }

    // What the edges of a place lead to, in order.
    pub fn targets<'b>(&'b self, m: u32) -> Targets<'b>
        requires { m < self.now.places }
        ensures list { result ≡ successors self.now m }
        ensures inside { Below self.now.places result }
    {
        Targets {
            rows: self.sources.rows(m),
            to: self.to,
        }
    }
}

// The targets of the edges of a place that are left. Contracts see them as a list.
#[derive(Drop)]
pub struct Targets<'a> {
    rows: Rows<'a>,
    to: &'a [u32],
}

impl<'a> Model for Targets<'a> {
    ghost use Rattle.std.specs.Prelude.{ℕ, List, length, map, slice_index};
    ghost use Rattle.tables.specs.Accepted.{Below};

    ghost Value = { List ℕ };

    ghost view = { λ t. map (λ (row : ℕ). slice_index t.to.now row) t.rows };

    ghost invariant = { λ t. Below (length t.to.now) t.rows };
}

impl<'a> Iterator for Targets<'a> {
    type Item = u32;

    ghost next_gives = { YieldsFirst (λ targets. targets) };

    ghost remaining = { item_count (λ targets. targets) };

    fn next(&mut self) -> Option<u32> {
        let row = self.rows.next()?;
        Some(self.to[row])
    }
}

// Marks m and all that it leads to.
pub fn visit(graph: &Digraph, m: u32, marks: &mut [u32])
    requires size { length marks.old ≡ graph.now.places }
    requires place { m < graph.now.places }
    ensures { Marked (successors graph.now) marks.old m marks.new }
{
    let at = m as usize;
    if marks[at] != 0 {
        return;
    }
    marks[at] = 1;
    for target in graph.targets(m) {
        visit(graph, target, marks);
    }
}

// Marks what c reaches, itself counted, and nothing else.
pub fn reach(graph: &Digraph, c: u32, marks: &mut [u32])
    requires size { length marks.old ≡ graph.now.places }
    requires place { c < graph.now.places }
    ensures { marks.new ≡ reach_marks graph.now.places (successors graph.now) c }
{
    marks.fill(0);
    visit(graph, c, marks);
}

// Whether an edge of c leads to a marked place.
#[tactic(auto, using(crate::proofs::Rows::lead_steps))]
pub fn leads(graph: &Digraph, c: u32, marks: &[u32]) -> bool
    requires size { length marks.now ≡ graph.now.places }
    requires place { c < graph.now.places }
    ensures { result ≡ any (has marks.now) (successors graph.now c) }
{
    // tried, the proof of `any` didn't close
    for target in graph.targets(c) {
        if marks[target as usize] != 0 {
            return true;
        }
    }
    false
}
