// For crates above: the risk of an entry over its two orders.
ghost use Rattle.std.specs.Prelude.{◌≡◌, ◌<◌, ◌≤◌, length, replicate};
ghost use Rattle.lists.specs.Words.{keep, has};
ghost use Rattle.tables.specs.Refusal.{module_limit};
ghost use Rattle.risk_of_orders.specs.Risk.{order_risk, cycle_risk};
ghost use Rattle.risk_of_orders.specs.inner.Steps.{join, listed, puts, puts_of, unmet, overtaken, Ranked, Order};

use std::marker::Model;
use table::MODULE_LIMIT;

// Marks the members of an order that are in a set.
#[tactic(auto, using(crate::proofs::Flagging::listing))]
fn mark_listed(order: &[u32], which: &[u32], marks: &mut [u32])
    requires members { Order order.now (length marks.old) }
    requires rows { length which.now ≡ length marks.old }
    ensures { marks.new ≡ join marks.old (listed order.now which.now) }
{
    for &m in order {
        let at = m as usize;
        if which[at] == 0 {
            continue;
        }
        marks[at] = 1;
    }
}

// Writes each sensitive module's place among the sensitive ones of an order, from 1.
fn place_sensitive(order: &[u32], sensitive: &[u32], places: &mut [u32])
    requires members { Order order.now (length places.old) }
    requires rows { length sensitive.now ≡ length places.old }
    requires zeroed { places.old ≡ replicate (length places.old) 0 }
    ensures { Ranked (keep (has sensitive.now) order.now) places.new }
{
    let mut count = 0;
    for &m in order {
        let at = m as usize;
        if sensitive[at] == 0 {
            continue;
        }
        count += 1;
        places[at] = count;
    }
}

// What the order risk reads of each module: its host, whether it is sensitive, whether it is eligible. Contracts see the three columns.
#[derive(Drop)]
pub struct RiskColumns<'a> {
    pub hosts: &'a [u32],
    pub sensitive: &'a [u32],
    pub eligible: &'a [u32],
}

impl<'a> Model for RiskColumns<'a> {
    ghost use Rattle.std.specs.Prelude.{length};
    ghost use Rattle.risk_of_orders.specs.inner.Steps.{ModuleColumns, Columns};

    ghost Value = { ModuleColumns };

    ghost view = { λ c. record { hosts = c.hosts.now; sensitive = c.sensitive.now; eligible = c.eligible.now } };

    ghost invariant = { λ c. Columns c.hosts.now c.sensitive.now c.eligible.now (length c.hosts.now) };
}

// Puts a flagged module at risk if it is eligible, else its host, if noted and eligible.
#[tactic(auto, using(crate::proofs::Puts::flagged_puts))]
fn flag(columns: &RiskColumns, out: &mut [u32], m: u32)
    requires rows { length columns.now.hosts ≡ length out.old }
    requires module { m < length out.old }
    ensures { out.new ≡ join out.old (puts columns.now.eligible columns.now.hosts m) }
{
    let eligible = columns.eligible;
    let at = m as usize;
    if eligible[at] != 0 {
        out[at] = 1;
        return;
    }
    // The missing mark is no module's row.
    let host = columns.hosts[at] as usize;
    if eligible.len() <= host {
        return;
    }
    if eligible[host] == 0 {
        return;
    }
    out[host] = 1;
}

// Flags the sensitive modules of an order that have no mark in the other.
#[tactic(auto, using(crate::proofs::Flagging::unmetting))]
fn flag_unmet(order: &[u32], other: &[u32], columns: &RiskColumns, out: &mut [u32])
    requires members { Order order.now (length out.old) }
    requires rows { length columns.now.hosts ≡ length out.old }
    requires marks { length other.now ≡ length out.old }
    ensures { out.new ≡ join out.old (puts_of columns.now.eligible columns.now.hosts (unmet columns.now.sensitive other.now) order.now) }
{
    let sensitive = columns.sensitive;
    for &m in order {
        let at = m as usize;
        if sensitive[at] == 0 {
            continue;
        }
        if other[at] != 0 {
            continue;
        }
        flag(columns, out, m);
    }
}

// Flags the sensitive modules of the expected order with an earlier one at a greater place. One without a place counts nowhere.
#[tactic(auto, using(crate::proofs::Flagging::overtaking))]
fn flag_overtaken(expected: &[u32], places: &[u32], columns: &RiskColumns, out: &mut [u32])
    requires members { Order expected.now (length out.old) }
    requires rows { length columns.now.hosts ≡ length out.old }
    requires places { length places.now ≡ length out.old }
    ensures { out.new ≡ join out.old (puts_of columns.now.eligible columns.now.hosts (overtaken columns.now.sensitive places.now expected.now) expected.now) }
{
    let sensitive = columns.sensitive;
    let mut latest = 0;
    for &m in expected {
        let at = m as usize;
        if sensitive[at] == 0 {
            continue;
        }
        let place = places[at];
        let passed = latest;
        latest = passed.max(place);
        if place == 0 {
            continue;
        }
        if passed <= place {
            continue;
        }
        flag(columns, out, m);
    }
}

// Adds an entry's order risk to a set. The set is what is written, so it stands beside what is read.
pub fn add_order_risk(expected: &[u32], actual: &[u32], columns: &RiskColumns, out: &mut [u32])
    requires orders { Order expected.now (length out.old) × Order actual.now (length out.old) }
    requires rows { length columns.now.hosts ≡ length out.old }
    requires few { length out.old ≤ module_limit }
    ensures { out.new ≡ join out.old (order_risk (has columns.now.sensitive) (has columns.now.eligible) expected.now actual.now columns.now.hosts) }
{
    let n = out.len();
    let mut places = [0u32; MODULE_LIMIT];
    let places = &mut places[..n];
    place_sensitive(actual, columns.sensitive, places);
    let mut wanted = [0u32; MODULE_LIMIT];
    let wanted = &mut wanted[..n];
    mark_listed(expected, columns.sensitive, wanted);
    flag_unmet(expected, places, columns, out);
    flag_unmet(actual, wanted, columns, out);
    flag_overtaken(expected, places, columns, out);
}

// Adds an entry's cycle risk to a set.
pub fn add_cycle_risk(expected: &[u32], eligible: &[u32], out: &mut [u32], reaches_cycle: bool)
    requires order { Order expected.now (length out.old) }
    requires rows { length eligible.now ≡ length out.old }
    ensures { out.new ≡ join out.old (cycle_risk (has eligible.now) expected.now reaches_cycle) }
{
    if reaches_cycle {
        mark_listed(expected, eligible, out);
    }
}
