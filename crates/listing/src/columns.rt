// From values row by row to columns.
ghost use Rattle.std.specs.Prelude.{◌≡◌, ℕ, ◌+◌, ◌*◌, ◌<◌, ◌≤◌, [], ◌∷◌, drop, slice_index};
ghost use mathlib.Core.List.{flatten};
ghost use Rattle.std.proofs.lemmas.List.Edits.{sets};
ghost use Rattle.lists.specs.Words.{up_to};
ghost use Rattle.text_rows.specs.inner.Cells.{widths};
ghost use Rattle.listing.specs.inner.Columns.{stripe, stripes, cut, Climbs};
ghost use Rattle.listing.specs.Reading.{tails};

use table::COLUMNS;
use text_rows::inner::width;

// Copies the settings, the first row.
pub fn settle(rows: &[u32; 32768], settings: &mut [u32; 2])
    ensures { settings.new ≡ sets settings.old 0 (slice_index rows.now 0 ∷ slice_index rows.now 1 ∷ []) }
{
    settings[0] = rows[0];
    settings[1] = rows[1];
}

// Copies a column of n values, which stand w apart in rows from `first` on, to columns from `to` on.
fn copy_column(
    rows: &[u32; 32768],
    first: usize,
    w: usize,
    n: usize,
    columns: &mut [u32; 32768],
    to: usize,
)
    requires { ((r : ℕ) → r < n → first + r * w < 32768) × (w < 9) × (to + n ≤ 32768) }
    ensures { columns.new ≡ sets columns.old to (stripe w first n rows.now) }
{
    // columns lie apart in rows: the place is computed
    for r in 0..n {
        columns[to + r] = rows[first + r * w];
    }
}

// Copies the w columns of a list of n rows, which begins at `first` in rows, to columns from `to` on, and notes behind the j-th bound where each
// ends. The answer is where the last ends.
fn spread_list(
    rows: &[u32; 32768],
    bounds: &mut [u32; COLUMNS + 1],
    columns: &mut [u32; 32768],
    first: usize,
    w: usize,
    n: usize,
    to: usize,
    j: usize,
) -> usize
    requires { (first + n * w ≤ 32768) × (to + n * w ≤ 32768) × (w < 9) × (j + w < 35) }
    ensures value { result ≡ to + n * w }
    ensures columns_after { columns.new ≡ sets columns.old to (flatten (stripes w first n rows.now (up_to w))) }
    ensures bounds_after { bounds.new ≡ sets bounds.old (j + 1) (tails to (stripes w first n rows.now (up_to w))) }
{
    let mut at = to;
    // by number: each column's places are computed
    for k in 0..w {
        copy_column(rows, first + k, w, n, columns, at);
        at += n;
        bounds[j + k + 1] = at as u32;
    }
    at
}

// Copies the columns of every list but the settings, which end in rows where ends says, to columns from place 0.
pub fn spread(
    rows: &[u32; 32768],
    ends: &[usize; 15],
    bounds: &mut [u32; COLUMNS + 1],
    columns: &mut [u32; 32768],
)
    requires { Climbs 2 (drop 1 ends.now) 32768 }
    ensures columns_after { columns.new ≡ sets columns.old 0 (flatten (cut (drop 1 widths) (drop 1 ends.now) 2 rows.now)) }
    ensures bounds_after { bounds.new ≡ sets bounds.old 0 (0 ∷ tails 0 (cut (drop 1 widths) (drop 1 ends.now) 2 rows.now)) }
{
    bounds[0] = 0;
    let mut first = 2;
    let mut to = 0;
    let mut j = 0;
    // by number: a list's width is looked up by it, and the settings are left out
    for l in 1..15 {
        let w = width(l);
        let end = ends[l];
        to = spread_list(rows, bounds, columns, first, w, (end - first) / w, to, j);
        first = end;
        j += w;
    }
}
