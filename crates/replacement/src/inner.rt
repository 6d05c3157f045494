// For crates above, on tested tables.
ghost use Rattle.std.specs.Prelude.{◌≡◌, true, map, ◌+◌, ◌<◌, ◌≤◌, length};
ghost use Rattle.lists.specs.Words.{up_to};
ghost use Rattle.tables.specs.Refusal.{module_limit, newer_fits};
ghost use Rattle.replacement.specs.Replacement.{latest};
ghost use Rattle.replacement.specs.inner.Passes.{Found, found_at};

use tables::ModuleIdx;

// The module that is read for m, by those that are read for the later ones.
#[tactic(auto, using(crate::proofs::Chains::latest_steps))]
fn latest_of(newer: &[u32], found: &[u32], m: usize) -> u32
    requires found { Found newer.now found.now (m + 1) }
    requires m_in_bounds { m < length newer.now }
    ensures { result ≡ latest newer.now m }
{
    let next = newer[m];
    if next == ModuleIdx::MISSING {
        return m as u32;
    }
    found[next as usize]
}

// The module that is read for each module: the last of its chain.
#[tactic(auto, using(crate::proofs::Chains::latest_steps))]
pub fn find_latest(newer: &[u32], found: &mut [u32])
    requires newer_value { newer_fits newer.now ≡ true }
    requires found_len { length found.old ≡ length newer.now }
    requires newer_len_bound { length newer.now ≤ module_limit }
    ensures { found.new ≡ map (latest newer.now) (up_to (length newer.now)) }
{
    // by number, from the last: each reads what was written for a later one
    for m in (0..newer.len()).rev() {
        found[m] = latest_of(newer, found, m);
    }
}

// What is read for a value: the last of its chain, or the mark.
fn found_at(found: &[u32], m: u32) -> u32
    ensures { result ≡ found_at found.now m }
{
    found.get(m as usize).copied().unwrap_or(m)
}

// A column of modules, or of modules and the mark, as it is read.
pub fn read_through(found: &[u32], column: &[u32], out: &mut [u32])
    requires { length out.old ≡ length column.now }
    ensures { out.new ≡ map (found_at found.now) column.now }
{
    for (i, m) in column.iter().enumerate() {
        out[i] = found_at(found, *m);
    }
}
