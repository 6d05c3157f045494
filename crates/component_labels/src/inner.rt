// For crates above, on tested tables: labels over the rows of two columns.
ghost use Rattle.std.specs.Prelude.{◌≡◌, ◌+◌, ◌<◌, ◌≤◌, length};
ghost use Rattle.lists.specs.Words.{keep, up_to, zeros};
ghost use Rattle.tables.specs.Readings.{first_of, values_of};
ghost use Rattle.tables.specs.Refusal.{chunk_limit, row_limit};
ghost use Rattle.strong_connection.specs.Cycles.{labels as labelsOver};
ghost use Rattle.strong_connection.specs.inner.Graph.{Graph, successors, backward};
ghost use Rattle.component_labels.specs.inner.Labelling.{Numbered, in_both, relabelled, component_labelled, labelled, ChunksLabelled};

use strong_connection::inner::{Digraph, leads, reach};
use table::{CHUNK_LIMIT, ROW_LIMIT};
use tables::ModuleIdx;

// The first chunk that both sets of marks have, or the missing mark.
fn first_both(ahead: &[u32], behind: &[u32]) -> u32
    requires few { length ahead.now ≤ chunk_limit }
    requires behind { length behind.now ≡ length ahead.now }
    ensures { result ≡ first_of (keep (in_both ahead.now behind.now) (up_to (length ahead.now))) }
{
    for (d, &mark) in ahead.iter().enumerate() {
        if mark == 0 {
            continue;
        }
        if behind[d] != 0 {
            return d as u32;
        }
    }
    // the mark, as the column that it is written to holds it
    ModuleIdx::MISSING
}

// Labels with c what both sets of marks have.
fn label_both(ahead: &[u32], behind: &[u32], c: u32, labels: &mut [u32])
    requires ahead { length ahead.now ≡ length labels.old }
    requires behind { length behind.now ≡ length labels.old }
    ensures { labels.new ≡ relabelled (in_both ahead.now behind.now) c labels.old }
{
    for (d, label) in labels.iter_mut().enumerate() {
        if ahead[d] == 0 {
            continue;
        }
        if behind[d] == 0 {
            continue;
        }
        *label = c;
    }
}

// Labels the component of c with its lowest row, if it is cyclic. `back` has the edges backward.
fn label_component(graph: &Digraph, back: &Digraph, c: u32, labels: &mut [u32])
    requires few { graph.now.places ≤ chunk_limit }
    requires size { length labels.old ≡ graph.now.places }
    requires graph { Graph graph.now.from graph.now.to graph.now.places }
    requires back { back.now ≡ backward graph.now }
    requires chunk { c < graph.now.places }
    ensures { labels.new ≡ component_labelled graph.now.places (successors graph.now) c labels.old }
{
    let n = graph.places();
    let mut behind = [0u32; CHUNK_LIMIT];
    let behind = &mut behind[..n];
    reach(back, c, behind);
    if !leads(graph, c, behind) {
        return;
    }
    let mut ahead = [0u32; CHUNK_LIMIT];
    let ahead = &mut ahead[..n];
    reach(graph, c, ahead);
    let lowest = first_both(ahead, behind);
    label_both(ahead, behind, lowest, labels);
}

// Numbers m and what it leads to, each chunk after those that it leads to, on from `last`; the last number given.
// Any numbers are right for the labels: by these, only an edge that closes a cycle doesn't fall.
fn number(graph: &Digraph, m: u32, last: u32, numbers: &mut [u32]) -> u32
    requires size { length numbers.old ≡ graph.now.places }
    requires chunk { m < graph.now.places }
    requires few { last + zeros numbers.old ≤ chunk_limit }
    ensures { Numbered last numbers.old result numbers.new }
{
    let at = m as usize;
    if numbers[at] != 0 {
        return last;
    }
    numbers[at] = 1;
    let mut count = last;
    for target in graph.targets(m) {
        count = number(graph, target, count, numbers);
    }
    numbers[at] = count + 1;
    count + 1
}

// Numbers every chunk. What the numbers are is left open: the labels don't depend on them.
fn number_all(graph: &Digraph, numbers: &mut [u32])
    requires few { graph.now.places ≤ chunk_limit }
    requires size { length numbers.old ≡ graph.now.places }
{
    let mut last = 0;
    // by number: each call writes into `numbers`
    for c in 0..numbers.len() {
        last = number(graph, c as u32, last, numbers);
    }
}

// Labels every chunk. Numbers can't fall all the way around a cycle, so each cyclic component has a target of an edge that doesn't fall.
fn label_rows(graph: &Digraph, back: &Digraph, labels: &mut [u32])
    requires few { graph.now.places ≤ chunk_limit }
    requires size { length labels.old ≡ graph.now.places }
    requires graph { Graph graph.now.from graph.now.to graph.now.places }
    requires back { back.now ≡ backward graph.now }
    ensures { labels.new ≡ labelsOver graph.now.places (successors graph.now) }
{
    labels.fill(ModuleIdx::MISSING);
    let mut numbers = [0u32; CHUNK_LIMIT];
    let numbers = &mut numbers[..graph.places()];
    number_all(graph, numbers);
    for (&source, &c) in graph.from().iter().zip(graph.to()) {
        if numbers[c as usize] < numbers[source as usize] {
            continue;
        }
        if labels[c as usize] != ModuleIdx::MISSING {
            continue;
        }
        label_component(graph, back, c, labels);
    }
}

// How many chunks have a label. `lists` counts marks so: one function of both would take the test as a closure, and be no shorter than two loops.
pub fn count_labelled(labels: &[u32]) -> usize
    ensures { result ≡ length (keep labelled labels.now) }
{
    let mut count = 0;
    for label in labels {
        if *label != ModuleIdx::MISSING {
            count += 1;
        }
    }
    count
}

// The labels of as many chunks as `labels` has places; counts the cyclic ones.
pub fn label_chunks(from: &[u32], to: &[u32], labels: &mut [u32]) -> usize
    requires few { length labels.old ≤ chunk_limit }
    requires rows { length from.now ≤ row_limit }
    requires graph { Graph from.now to.now (length labels.old) }
    ensures { ChunksLabelled (length labels.old) (values_of from.now to.now) labels.new result }
{
    let n = labels.len();
    // as where chunk reach is looked for: a graph borrows its arrays, so no function can make both
    let mut heads = [0u32; CHUNK_LIMIT];
    let mut nexts = [0u32; ROW_LIMIT];
    let graph = Digraph::new(from, to, &mut heads[..n], &mut nexts);
    let mut heads = [0u32; CHUNK_LIMIT];
    let mut nexts = [0u32; ROW_LIMIT];
    let back = Digraph::new(to, from, &mut heads[..n], &mut nexts);
    label_rows(&graph, &back, labels);
    count_labelled(labels)
}
