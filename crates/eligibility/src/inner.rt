// Eligible modules, for crates above, on columns that fit. No function here branches, which `tools/branchless/run` tests: the test
// is the product of five facts, each 1 exactly if it holds, else 0, whatever stands in the columns.
ghost use Rattle.std.specs.Prelude.{◌≡◌, ◌<◌, not, length, ◌==◌, nat_lt, slice_index};
ghost use Rattle.lists.specs.Words.{bit};
ghost use Rattle.tables.specs.Readings.{modules, flagged, wrapped};
ghost use Rattle.eligibility.specs.Eligible.{eligible, eligible_marks};
ghost use Rattle.eligibility.specs.Ready.{Kinds};

use current_columns::inner::Columns;

// A module isn't the runtime.
fn not_runtime(m: usize, runtime: u32) -> u32
    ensures { result ≡ bit (not (m == runtime)) }
{
    (m != (runtime as usize)) as u32
}

// A module's flag is set: it is included, or it is normal.
fn is_flagged(flag: &[u32], m: usize) -> u32
    requires { m < length flag.now }
    ensures { result ≡ bit (flagged flag.now m) }
{
    (flag[m] == 1) as u32
}

// A module's exports are 0 or 1.
fn not_common_js(exports: &[u32], m: usize) -> u32
    requires { m < length exports.now }
    ensures { result ≡ bit (nat_lt (slice_index exports.now m) 2) }
{
    (exports[m] < 2) as u32
}

// A module's wrap is 0.
fn not_wrapped(wrap: &[u32], m: usize) -> u32
    requires { m < length wrap.now }
    ensures { result ≡ bit (not (wrapped wrap.now m)) }
{
    (wrap[m] == 0) as u32
}

// 1 for an eligible module, else 0.
fn is_order_wrap_eligible(columns: &Columns, m: usize) -> u32
    requires { Kinds columns.now × (m < modules columns.now) }
    ensures { result ≡ bit (eligible columns.now m) }
{
    let not_runtime = not_runtime(m, columns.runtime);
    let is_included = is_flagged(columns.included, m);
    let is_normal = is_flagged(columns.normal, m);
    let not_common_js = not_common_js(columns.exports, m);
    let not_wrapped = not_wrapped(columns.wrap, m);
    not_runtime * is_included * is_normal * not_common_js * not_wrapped
}

// Marks the eligible modules.
pub fn mark_eligible(columns: &Columns, marks: &mut [u32])
    requires { Kinds columns.now × (length marks.old ≡ modules columns.now) }
    ensures { marks.new ≡ eligible_marks columns.now }
{
    // by number: the branch test allows no method but `len`
    for m in 0..marks.len() {
        marks[m] = is_order_wrap_eligible(columns, m);
    }
}
