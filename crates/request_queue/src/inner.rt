// For crates above, on tested tables.
ghost use Rattle.std.specs.Prelude.{◌≡◌, ◌<◌, ◌≤◌, [], length, slice_index, replicate, drop};
ghost use Rattle.strong_connection.specs.inner.Graph.{successors};
ghost use Rattle.request_queue.specs.inner.Once.{standing-once};
ghost use Rattle.request_queue.specs.inner.Growing.{node_limit, Standing, Listed, among, Grown, Along, Reached};

use strong_connection::inner::Digraph;

// A list of places that grows in a slice, each member once. Contracts see it, and the marks, by `listing`: a member's mark is one more than its place in the list, every other is 0.
// Its slices are the caller's, so that what is promised of the list is promised of them too: with an `impl Model`, or one lifetime for both, the check loses them.
// That they hold a list is a fact of the type.
// The fields are open here and in the other values that grow in slices, so that any that are right can be lent as one.
#[derive(Drop)]
pub struct Queue<'a, 'b> {
    pub marks: &'a mut [u32],
    pub queue: &'b mut [u32],
    pub count: usize,
    pub ghost standing: { Standing marks.now queue.now count } by { standing-once marks.now queue.now count },
}

impl<'a, 'b> Queue<'a, 'b> {
    ghost use Rattle.request_queue.specs.inner.Lent.{listing, Queued, Kept};

    // An empty one in two slices.
    pub fn new(marks: &'a mut [u32], queue: &'b mut [u32]) -> Queue<'a, 'b>
        requires room { length queue.old ≡ length marks.old }
        requires few { length marks.old ≤ node_limit }
        ensures marks { result.marks.ghost_name ≡ marks.entry.ghost_name }
        ensures queue { result.queue.ghost_name ≡ queue.entry.ghost_name }
        ensures queued { Queued result }
        ensures empty { listing result ≡ record { marks = replicate (length marks.old) 0; list = [] } }
    {
        marks.fill(0);
        Queue {
            marks,
            queue,
            count: 0,
        }
    }

    // How many are listed.
    pub fn len(&self) -> usize
        ensures count { result ≡ length (listing self.now).list }
        ensures listed { Listed (listing self.now).marks (listing self.now).list }
    {
        self.count
    }

    // The marks.
    pub fn marks<'c>(&'c self) -> &'c [u32]
        ensures { result.now ≡ (listing self.now).marks }
    {
        self.marks
    }

    // Those listed from place k on.
    pub fn since<'c>(&'c self, k: usize) -> &'c [u32]
        requires from { k ≤ length (listing self.now).list }
        ensures { result.now ≡ drop k (listing self.now).list }
    {
        &self.queue[k..self.count]
    }

    // The one at place k.
    pub fn at(&self, k: usize) -> u32
        requires place { k < length (listing self.now).list }
        ensures member { result ≡ slice_index (listing self.now).list k }
        ensures place { result < length (listing self.now).marks }
    {
        let queue = &self.queue;
        queue[k]
    }

    // Lists x where it isn't listed yet.
    pub fn push(&mut self, x: u32)
        requires place { x < length (listing self.old).marks }
        ensures kept { Kept self.old self.new }
        ensures grown { Grown (λ y. y ≡ x) (listing self.old) (listing self.new) }
    {
        let at = x as usize;
        if self.marks[at] != 0 {
            return;
        }
        self.queue[self.count] = x;
        self.marks[at] = self.count as u32 + 1;
        self.count += 1;
    }

    // Lists what x leads to.
    fn follow(&mut self, graph: &Digraph, x: u32)
        requires size { length (listing self.old).marks ≡ graph.now.places }
        requires place { x < graph.now.places }
        ensures kept { Kept self.old self.new }
        ensures grown { Grown (among (successors graph.now x)) (listing self.old) (listing self.new) }
    {
        for target in graph.targets(x) {
            self.push(target);
        }
    }

    // Lists all that x leads to by one or more edges; what is listed before is closed along the edges.
    pub fn reach(&mut self, graph: &Digraph, x: u32)
        requires size { length (listing self.old).marks ≡ graph.now.places }
        requires place { x < graph.now.places }
        requires along { Along (successors graph.now) (listing self.old).marks }
        ensures kept { Kept self.old self.new }
        ensures reached { Reached (successors graph.now) x (listing self.old) (listing self.new) }
    {
        let mut k = self.len();
        self.follow(graph, x);
        // the list grows while it is read
        while k < self.len() {
            let next = self.at(k);
            self.follow(graph, next);
            k += 1;
        }
    }
}
