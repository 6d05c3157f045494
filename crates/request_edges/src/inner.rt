// For crates above, on tested tables.
ghost use Rattle.std.specs.Prelude.{◌≡◌, ◌≤◌, ◌∷◌, [], ◌++◌, length};
ghost use Rattle.tables.specs.Project.{missing};
ghost use Rattle.tables.specs.Refusal.{row_limit};
ghost use Rattle.marks.specs.Steps.{looked};
ghost use Rattle.request_edges.specs.inner.Edges.{numbered, choice, chosen, Rows, Room, Addable, Adds};

use marks::inner::look_up;
use table::ROW_LIMIT;
use tables::ModuleIdx;

// Writes its own number to each place.
pub fn number(out: &mut [u32])
    requires { length out.old ≤ row_limit }
    ensures { out.new ≡ numbered (length out.old) }
{
    for (i, slot) in out.iter_mut().enumerate() {
        *slot = i as u32;
    }
}

// A number, or the mark where one of two marks is 0: the mark, as it is written to a column.
fn choose(first: u32, second: u32, m: u32) -> u32
    ensures { result ≡ choice first second m }
{
    if first == 0 || second == 0 {
        ModuleIdx::MISSING
    } else {
        m
    }
}

// Writes its own number to each place that is in two sets, and the mark to the others.
pub fn number_chosen(first: &[u32], second: &[u32], out: &mut [u32])
    requires first { length first.now ≡ length out.old }
    requires second { length second.now ≡ length out.old }
    requires few { length out.old ≤ row_limit }
    ensures { out.new ≡ chosen first.now second.now }
{
    for (m, slot) in out.iter_mut().enumerate() {
        *slot = choose(first[m], second[m], m as u32);
    }
}

// What a column's numbers are looked up as in a table, in an array's front.
fn looked_up<'a>(column: &[u32], table: &[u32], space: &'a mut [u32; ROW_LIMIT]) -> &'a [u32]
    requires few { length column.now ≤ row_limit }
    ensures numbers { result.now ≡ looked missing table.now column.now }
    ensures rows { length result.now ≡ length column.now }
{
    let numbers = &mut space[..column.len()];
    look_up(column, table, numbers, ModuleIdx::MISSING);
    numbers
}

// A list of edges that grows in two slices. Contracts see their sources and targets, and how many there is room for, by `edges_of`; that they fit is a fact of the type.
#[derive(Drop)]
pub struct EdgeList<'a, 'b> {
    pub from: &'a mut [u32],
    pub to: &'b mut [u32],
    pub count: usize,
    pub ghost same: { length to.now ≡ length from.now },
    pub ghost within: { count ≤ length from.now },
}

impl<'a, 'b> EdgeList<'a, 'b> {
    ghost use Rattle.request_edges.specs.inner.Lent.{edges_of, Fitting, EdgesKept};

    // An empty one in two slices.
    pub fn new(from: &'a mut [u32], to: &'b mut [u32]) -> EdgeList<'a, 'b>
        requires { length to.old ≡ length from.old }
        ensures from { result.from.ghost_name ≡ from.entry.ghost_name }
        ensures to { result.to.ghost_name ≡ to.entry.ghost_name }
        ensures fitting { Fitting result }
        ensures empty { edges_of result ≡ record { from = []; to = []; room = length from.old } }
    {
        EdgeList { from, to, count: 0 }
    }

    // Where they come from.
    pub fn sources<'c>(&'c self) -> &'c [u32]
        ensures { result.now ≡ (edges_of self.now).from }
    {
        &self.from[..self.count]
    }

    // Where they lead to.
    pub fn targets<'c>(&'c self) -> &'c [u32]
        ensures targets { result.now ≡ (edges_of self.now).to }
        ensures same { length (edges_of self.now).to ≡ length (edges_of self.now).from }
    {
        &self.to[..self.count]
    }

    // Adds an edge from u to v.
    pub fn push(&mut self, u: u32, v: u32)
        requires room { Room 1 (edges_of self.old) }
        ensures kept { EdgesKept self.old self.new }
        ensures edge { edges_of self.new ≡ record { from = (edges_of self.old).from ++ u ∷ []; to = (edges_of self.old).to ++ v ∷ []; room = (edges_of self.old).room } }
        ensures same { length (edges_of self.old).to ≡ length (edges_of self.old).from }
    {
        self.from[self.count] = u;
        self.to[self.count] = v;
        self.count += 1;
    }

    // Adds an edge for each row of two columns that both have a row number: from the first one's place after `a` to the second one's after `b`.
    #[tactic(auto, using(crate::proofs::Adding::adding_steps))]
    pub fn add(&mut self, sources: &[u32], targets: &[u32], a: u32, b: u32)
        requires rows { Addable sources.now targets.now a b (edges_of self.old) }
        ensures kept { EdgesKept self.old self.new }
        ensures adds { Adds (Rows sources.now a targets.now b) (length sources.now) (edges_of self.old) (edges_of self.new) }
    {
        for (&source, &target) in sources.iter().zip(targets) {
            if ROW_LIMIT <= source as usize {
                continue;
            }
            if ROW_LIMIT <= target as usize {
                continue;
            }
            self.push(source + a, target + b);
        }
    }

    // The same, where the second column's numbers are looked up in a table.
    pub fn add_to_looked(&mut self, sources: &[u32], column: &[u32], table: &[u32], a: u32, b: u32)
        requires rows { Addable sources.now column.now a b (edges_of self.old) }
        requires few { length column.now ≤ row_limit }
        ensures kept { EdgesKept self.old self.new }
        ensures adds { Adds (Rows sources.now a (looked missing table.now column.now) b) (length sources.now) (edges_of self.old) (edges_of self.new) }
    {
        let mut space = [0u32; ROW_LIMIT];
        let targets = looked_up(column, table, &mut space);
        self.add(sources, targets, a, b);
    }

    // The same, where the first column's numbers are looked up in a table.
    pub fn add_from_looked(
        &mut self,
        column: &[u32],
        table: &[u32],
        targets: &[u32],
        a: u32,
        b: u32,
    )
        requires rows { Addable column.now targets.now a b (edges_of self.old) }
        requires few { length column.now ≤ row_limit }
        ensures kept { EdgesKept self.old self.new }
        ensures adds { Adds (Rows (looked missing table.now column.now) a targets.now b) (length column.now) (edges_of self.old) (edges_of self.new) }
    {
        let mut space = [0u32; ROW_LIMIT];
        let sources = looked_up(column, table, &mut space);
        self.add(sources, targets, a, b);
    }

    // The same, where both columns' numbers are looked up.
    pub fn add_looked(
        &mut self,
        first: &[u32],
        sources: &[u32],
        second: &[u32],
        targets: &[u32],
        a: u32,
        b: u32,
    )
        requires rows { Addable first.now second.now a b (edges_of self.old) }
        requires few { length first.now ≤ row_limit }
        ensures kept { EdgesKept self.old self.new }
        ensures adds { Adds (Rows (looked missing sources.now first.now) a (looked missing targets.now second.now) b) (length first.now) (edges_of self.old) (edges_of self.new) }
    {
        let mut space = [0u32; ROW_LIMIT];
        let looked = looked_up(second, targets, &mut space);
        self.add_from_looked(first, sources, looked, a, b);
    }
}
