// For crates above.
ghost use Rattle.std.specs.Prelude.{◌≡◌, ◌<◌, ◌≤◌, ◌++◌, map, length, drop, slice_index};
ghost use Rattle.tables.specs.Accepted.{Below};
ghost use Rattle.entry_run.specs.Actual.{read_as_two};
ghost use Rattle.wraps_and_hosts.specs.Hosts.{host_by};

use tables::ModuleIdx;

// A module's wrap, 2 where it is in a plan.
#[tactic(auto, using(crate::proofs::Fronts::as_two_out, crate::proofs::Fronts::as_two_in))]
fn wrap_with<'a>(plan: &'a [u32], wraps: &'a [u32], m: usize) -> u32
    requires { (m < length plan.now) × (m < length wraps.now) }
    ensures { result ≡ slice_index (read_as_two plan.now wraps.now) m }
{
    if plan[m] == 0 {
        return wraps[m];
    }
    2
}

// The wraps, with 2 for each module of a plan.
#[tactic(auto, using(crate::proofs::Fronts::as_two_written))]
pub fn read_as_two<'a>(plan: &'a [u32], wraps: &'a [u32], out: &mut [u32])
    requires plan { length plan.now ≡ length out.old }
    requires wraps { length wraps.now ≡ length out.old }
    ensures { out.new ≡ read_as_two plan.now wraps.now }
{
    for (m, wrap) in out.iter_mut().enumerate() {
        *wrap = wrap_with(plan, wraps, m);
    }
}

// The host of a module: the noted one, else itself.
pub fn own_host(noted: &[u32], m: u32) -> u32
    requires { m < length noted.now }
    ensures { result ≡ host_by noted.now m }
{
    let host = noted[m as usize];
    if host == ModuleIdx::MISSING {
        return m;
    }
    host
}

// The hosts of some modules, written from place 0.
#[tactic(auto, using(crate::proofs::Fronts::front_mapped))]
pub fn name_hosts<'a>(listed: &'a [u32], noted: &'a [u32], hosts: &mut [u32])
    requires inside { Below (length noted.now) listed.now }
    requires room { length listed.now ≤ length hosts.old }
    ensures { hosts.new ≡ map (host_by noted.now) listed.now ++ drop (length listed.now) hosts.old }
{
    for (i, &m) in listed.iter().enumerate() {
        hosts[i] = own_host(noted, m);
    }
}
