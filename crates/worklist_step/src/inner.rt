// For crates above, on tested tables.
ghost use Rattle.std.specs.Prelude.{◌≡◌, ◌<◌, ◌≤◌, length};
ghost use Rattle.tables.specs.Readings.{rows_of};
ghost use Rattle.tables.specs.Refusal.{module_limit};
ghost use Rattle.request_queue.specs.inner.Growing.{Grown, given, chosen};
ghost use Rattle.request_queue.specs.inner.Lent.{listing, Kept};
ghost use Rattle.worklist_step.specs.inner.Step.{nodes, Half, Given, Gives, Steppable, Stepped};

use request_graph::inner::{DEPENDENT, LABEL, LEAD, REQUEST};
use request_queue::inner::Queue;
use strong_connection::inner::Digraph;
use threads::inner::Threads;

// The module of a place that is one of rule (iii)'s two halves.
fn half(v: u32) -> u32
    requires { 8192 ≤ v }
    ensures { Half v result }
{
    if v < DEPENDENT {
        v - LEAD
    } else {
        v - DEPENDENT
    }
}

// The module that is to be listed when a place is met: that of a request, or the candidate with both halves of rule (iii).
fn module_of(v: u32, marks: &[u32], candidates: &[u32]) -> Option<u32>
    requires places { length marks.now ≡ nodes }
    requires few { length candidates.now ≤ module_limit }
    ensures { Given marks.now candidates.now v result }
{
    if v < REQUEST {
        return None;
    }
    if v < LEAD {
        let m = v - REQUEST;
        if candidates.len() <= m as usize {
            return None;
        }
        return Some(m);
    }
    if LABEL <= v {
        return None;
    }
    let m = half(v);
    let at = m as usize;
    if candidates.len() <= at {
        return None;
    }
    if candidates[at] == 0 {
        return None;
    }
    if marks[at + LEAD as usize] == 0 {
        return None;
    }
    if marks[at + DEPENDENT as usize] == 0 {
        return None;
    }
    Some(m)
}

// Lists the modules that are to be listed for the places of a part of the graph's list.
fn list_requests(part: &[u32], marks: &[u32], candidates: &[u32], list: &mut Queue)
    requires places { length marks.now ≡ nodes }
    requires few { length candidates.now ≤ module_limit }
    requires size { length (listing list.old).marks ≡ length candidates.now }
    ensures kept { Kept list.old list.new }
    ensures grown { Grown (given (Gives marks.now candidates.now) part.now) (listing list.old) (listing list.new) }
{
    for &v in part {
        let Some(m) = module_of(v, marks, candidates) else {
            continue;
        };
        list.push(m);
    }
}

// Lists the eligible modules that rule (i) asks for first after so many takings.
fn list_asked(asked: &Threads, eligible: &[u32], list: &mut Queue, at: u32)
    requires place { at < asked.now.places }
    requires few { length asked.now.values ≤ module_limit }
    requires eligible { length eligible.now ≡ length asked.now.values }
    requires size { length (listing list.old).marks ≡ length asked.now.values }
    ensures kept { Kept list.old list.new }
    ensures grown { Grown (given (chosen eligible.now) (rows_of asked.now.values at)) (listing list.old) (listing list.new) }
{
    for m in asked.rows(at) {
        if eligible[m] == 0 {
            continue;
        }
        list.push(m as u32);
    }
}

// Takes the module at place k of the list.
pub fn step(
    graph: &Digraph,
    candidates: &[u32],
    eligible: &[u32],
    asked: &Threads,
    met: &mut Queue,
    list: &mut Queue,
    k: usize,
)
    requires steppable { Steppable graph.now candidates.now eligible.now asked.now (listing met.old) (listing list.old) k }
    ensures met { Kept met.old met.new }
    ensures list { Kept list.old list.new }
    ensures stepped { Stepped graph.now candidates.now eligible.now asked.now.values (listing met.old) (listing list.old) k (listing met.new) (listing list.new) }
{
    // so k + 1 is small: no more are listed than there are modules
    prove!(k < list.len());
    let x = list.at(k);
    let before = met.len();
    met.reach(graph, x);
    list_requests(met.since(before), met.marks(), candidates, list);
    list_asked(asked, eligible, list, k as u32 + 1);
}
