// Tests of columns, for crates above. Each but the last two goes over every row and joins their answers, with no way out on the way: so the compiler takes several
// rows at a time.
ghost use Rattle.std.specs.Prelude.{◌≡◌, ℕ, length, nat_eq, slice_index};
ghost use Rattle.lists.specs.Words.{every};
ghost use Rattle.tables.specs.Accepted.{Below};
ghost use Rattle.tables.specs.Lookups.{Rising};
ghost use Rattle.tables.specs.Refusal.{module_limit, chunk_limit, below, below_or_missing, rises, uses_own, plain_symbols, entries_once, imports_once, newer_fits};

use table::{CHUNK_LIMIT, MODULE_LIMIT};
use tables::ModuleIdx;

// A row of a column, 0 past its end.
pub fn value_at(column: &[u32], row: usize) -> u32
    ensures { result ≡ slice_index column.now row }
{
    column.get(row).copied().unwrap_or(0)
}

// Whether every value is below a bound.
#[tactic(auto, using(crate::proofs::Every::rows), unfolding(tables::specs::Refusal::below))]
fn under(column: &[u32], bound: u32) -> bool
    ensures { result ≡ below bound column.now }
{
    let mut fit = true;
    for x in column {
        fit = fit & (*x < bound);
    }
    fit
}

// Whether every value is below a bound or the missing mark. Beside the one above, and not one of both: the test would be a closure, and each has its
// definition in the scope's test 2.
#[tactic(auto, using(crate::proofs::Every::rows), unfolding(tables::specs::Refusal::below_or_missing))]
fn under_or_missing(column: &[u32], bound: u32) -> bool
    ensures { result ≡ below_or_missing bound column.now }
{
    let mut fit = true;
    for x in column {
        fit = fit & ((*x < bound) | (*x == ModuleIdx::MISSING));
    }
    fit
}

// Whether every value is below n.
pub fn all_below(column: &[u32], n: usize) -> bool
    ensures { result ≡ below n column.now }
{
    let Ok(bound) = u32::try_from(n) else {
        return true;
    };
    under(column, bound)
}

// Whether every value is below n or the missing mark.
pub fn all_below_or_missing(column: &[u32], n: usize) -> bool
    ensures { result ≡ below_or_missing n column.now }
{
    let Ok(bound) = u32::try_from(n) else {
        return true;
    };
    under_or_missing(column, bound)
}

// Whether no row is below the row above.
#[tactic(auto, using(crate::proofs::Risen::risen))]
pub fn is_rising(column: &[u32]) -> bool
    ensures { result ≡ rises column.now }
{
    let mut rising = true;
    for pair in column.windows(2) {
        rising = rising & (pair[0] <= pair[1]);
    }
    rising
}

// Whether this value stands at every place that a column names.
#[tactic(auto, using(crate::proofs::Every::rows))]
pub fn all_at<'a>(values: &'a [u32], column: &'a [u32], value: u32) -> bool
    ensures { result ≡ every (λ (x : ℕ). nat_eq (slice_index values.now x) value) column.now }
{
    let mut fit = true;
    for x in column {
        fit = fit & (value_at(values, *x as usize) == value);
    }
    fit
}

// Whether every use names a record of its statement's module.
#[tactic(auto, using(crate::proofs::Every::counted), unfolding(tables::specs::Refusal::uses_own))]
pub fn uses_own<'a>(
    statement_module: &'a [u32],
    record_module: &'a [u32],
    use_statement: &'a [u32],
    use_record: &'a [u32],
) -> bool
    ensures { result ≡ uses_own statement_module.now record_module.now use_statement.now use_record.now }
{
    let mut fit = true;
    for (i, statement) in use_statement.iter().enumerate() {
        let used = value_at(use_record, i) as usize;
        fit = fit
            & (value_at(statement_module, *statement as usize) == value_at(record_module, used));
    }
    fit
}

// Whether every reference of form 0 or 1 has a symbol.
#[tactic(auto, using(crate::proofs::Every::symbols), unfolding(tables::specs::Refusal::plain_symbols))]
pub fn plain_symbols<'a>(reference_form: &'a [u32], reference_symbol: &'a [u32]) -> bool
    ensures { result ≡ plain_symbols reference_form.now reference_symbol.now }
{
    let mut fit = true;
    for (form, symbol) in reference_form.iter().zip(reference_symbol) {
        fit = fit & ((*form == 2) | (*symbol != ModuleIdx::MISSING));
    }
    fit
}

// Whether every `newer` is the missing mark or the number of a later row.
#[tactic(auto, using(crate::proofs::Every::counted), unfolding(tables::specs::Refusal::newer_fits))]
pub fn newer_fits(newer: &[u32]) -> bool
    ensures { result ≡ newer_fits newer.now }
{
    let mut fit = true;
    for (i, next) in newer.iter().enumerate() {
        let at = *next as usize;
        fit = fit & ((*next == ModuleIdx::MISSING) | ((i < at) & (at < newer.len())));
    }
    fit
}

// Whether no entry stands twice, by a mark for each module.
pub fn entries_once(entry: &[u32]) -> bool
    requires { Below module_limit entry.now }
    ensures { result ≡ entries_once entry.now }
{
    let mut marks = [0u32; MODULE_LIMIT];
    for module in entry {
        let at = *module as usize;
        if marks[at] != 0 {
            return false;
        }
        marks[at] = 1;
    }
    true
}

// Whether no import pair stands twice: each chunk is stamped with one more than the last chunk that imports it.
pub fn imports_once<'a>(import_chunk: &'a [u32], imports: &'a [u32]) -> bool
    requires rising { Rising import_chunk.now }
    requires bounds { length imports.now ≡ length import_chunk.now }
    requires from { Below chunk_limit import_chunk.now }
    requires to { Below chunk_limit imports.now }
    ensures { result ≡ imports_once import_chunk.now imports.now }
{
    let mut stamps = [0u32; CHUNK_LIMIT];
    for (chunk, imported) in import_chunk.iter().zip(imports) {
        let stamp = *chunk + 1;
        let to = *imported as usize;
        if stamps[to] == stamp {
            return false;
        }
        stamps[to] = stamp;
    }
    true
}
