// For crates above, on columns that fit and tested names.
ghost use Rattle.std.specs.Prelude.{◌≡◌, ℕ, ◌<◌, true, length, slice_index};
ghost use Rattle.tables.specs.Lookups.{Rising};
ghost use Rattle.tables.specs.Readings.{modules};
ghost use Rattle.names.specs.Names.{names_fit, turned};
ghost use Rattle.name_order.specs.inner.Lines.{line_at};
ghost use Rattle.merge_sort.specs.inner.Held.{held_key};
ghost use Rattle.module_keys.specs.Keys.{recordless, group_by, key_of};
ghost use Rattle.module_keys.specs.inner.Filling.{Filled, Modules, place_by};

use current_columns::inner::Columns;
use name_order::inner::{find_starts, is_runtime};
use tables::inner::first_row;

// Whether a module is without any record.
#[tactic(auto, using(crate::proofs::Keys::record_none, crate::proofs::Keys::record_at))]
fn is_recordless(importers: &[u32], m: usize) -> bool
    requires { Rising importers.now }
    ensures { result ≡ recordless importers.now m }
{
    let row = first_row(importers, m);
    if row < importers.len() {
        return importers[row] as usize != m;
    }
    true
}

// The group of a module whose name starts at a place.
#[tactic(auto, unfolding(current_columns::specs::AsProject::project, crate::specs::Keys::group_by))]
fn group_of(columns: &Columns, names: &[u8], at: usize, m: usize) -> u32
    requires columns { Modules columns.now (modules columns.now) }
    requires row { m < modules columns.now }
    ensures { result ≡ group_by (turned (line_at names.now at)) columns.now.normal columns.now.record_module columns.now.sensitive m }
{
    if is_runtime(names, at) {
        return 0;
    }
    let normal = columns.normal;
    if normal[m] != 1 {
        return 2;
    }
    let sensitive = columns.sensitive;
    if sensitive[m] != 0 {
        return 2;
    }
    let importers = columns.record_module;
    if is_recordless(importers, m) { 1 } else { 2 }
}

// Finds the group of each module, whose names start at `starts`.
fn fill_groups(columns: &Columns, names: &[u8], starts: &[usize], groups: &mut [u32])
    requires columns { Modules columns.now (modules columns.now) }
    requires room { (length groups.old ≡ modules columns.now) × (length starts.now ≡ modules columns.now) }
    ensures { Filled (λ (m : ℕ). group_by (turned (line_at names.now (slice_index starts.now m))) columns.now.normal columns.now.record_module columns.now.sensitive m) groups.new }
{
    for (m, group) in groups.iter_mut().enumerate() {
        *group = group_of(columns, names, starts[m], m);
    }
}

// Puts the number of each module that is no leaf into its place.
fn put_numbers(groups: &[u32], numbers: &[u32], places: &mut [usize])
    requires { (length places.old ≡ length groups.now) × (length numbers.now ≡ length groups.now) }
    ensures { Filled (place_by groups.now numbers.now places.old) places.new }
{
    for (m, place) in places.iter_mut().enumerate() {
        if groups[m] != 1 {
            *place = numbers[m] as usize;
        }
    }
}

// Finds the key of each module: its group, and its place behind it.
#[tactic(auto, using(crate::proofs::Keys::keys_held))]
pub fn find_keys(
    columns: &Columns,
    names: &[u8],
    numbers: &[u32],
    groups: &mut [u32],
    places: &mut [usize],
)
    requires columns { Modules columns.now (modules columns.now) }
    requires named { names_fit (modules columns.now) names.now ≡ true }
    requires room { (length groups.old ≡ modules columns.now) × (length places.old ≡ modules columns.now) × (length numbers.now ≡ modules columns.now) }
    ensures { (m : ℕ) → m < modules columns.now → held_key groups.new places.new names.now m ≡ key_of names.now columns.now.normal columns.now.record_module columns.now.sensitive numbers.now m }
{
    find_starts(names, places);
    fill_groups(columns, names, places, groups);
    put_numbers(groups, numbers, places);
}
