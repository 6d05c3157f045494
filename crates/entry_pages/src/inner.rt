// For crates above, on tested tables: the page of an entry, and one line of it. The sensitive and the planned modules are given, a
// mark a module.
ghost use Rattle.std.specs.Prelude.{◌≡◌, ◌<◌, ◌≤◌, length};
ghost use Rattle.lists.specs.Words.{keep, has};
ghost use Rattle.tables.specs.Readings.{modules};
ghost use Rattle.tables.specs.Refusal.{module_limit};
ghost use Rattle.expected_visit.specs.OfProject.{expected_of};
ghost use Rattle.entry_run.specs.Actual.{actual_of};
ghost use Rattle.lines.specs.Lines.{PutAt};
ghost use Rattle.risk_of_orders.specs.inner.Steps.{Order};
ghost use Rattle.page_text.specs.Page.{text_room};
ghost use Rattle.entry_pages.specs.Marked.{marked_text};

use analysed_entries::inner::AnalysedEntry;
use current_columns::inner::Current;
use entry_run::inner::prepare_and_list;
use expected_order::inner::find_expected;
use page_rows::inner::keep_marked;
use page_text::inner::put_text;
use table::MODULE_LIMIT;

// The marked modules of a root's expected order.
fn marked_expected<'a>(
    current: &Current,
    marks: &[u32],
    kept: &'a mut [u32; MODULE_LIMIT],
    root: u32,
) -> &'a [u32]
    requires row { root < modules current.now }
    requires marks { length marks.now ≡ modules current.now }
    ensures list { result.now ≡ keep (has marks.now) (expected_of current.now root) }
    ensures order { Order result.now (modules current.now) }
    ensures few { modules current.now ≤ module_limit }
{
    let mut order = [0u32; MODULE_LIMIT];
    let order = find_expected(current, &mut order, root);
    let count = keep_marked(order, marks, kept);
    &kept[..count]
}

// The marked modules of an entry's actual order.
fn marked_actual<'a>(
    entry: &AnalysedEntry,
    marks: &[u32],
    kept: &'a mut [u32; MODULE_LIMIT],
) -> &'a [u32]
    requires marks { length marks.now ≡ modules entry.now.current.now }
    ensures list { result.now ≡ keep (has marks.now) (actual_of entry.now.current.now entry.now.root) }
    ensures order { Order result.now (modules entry.now.current.now) }
{
    let mut order = [0u32; MODULE_LIMIT];
    let mut hosts = [0u32; MODULE_LIMIT];
    let hosts = &mut hosts[..entry.current.modules()];
    let listed = prepare_and_list(entry, &mut order, hosts);
    let count = keep_marked(&order[..listed], marks, kept);
    &kept[..count]
}

// Writes one line of an entry's page, by its number, or the page where no number is given, from place 0, and answers its length; past the last line 0.
pub fn put_entry_text(
    entry: &AnalysedEntry,
    sensitives: &[u32],
    plan: &[u32],
    out: &mut [u8],
    number: Option<usize>,
) -> usize
    requires marks { (length sensitives.now ≡ modules entry.now.current.now) × (length plan.now ≡ modules entry.now.current.now) }
    requires room { text_room (length plan.now) number ≤ length out.old }
    ensures { PutAt out.old 0 (marked_text entry.now.current.now sensitives.now plan.now entry.now.root number) out.new result }
{
    let mut expected = [0u32; MODULE_LIMIT];
    let expected = marked_expected(entry.current, sensitives, &mut expected, entry.root);
    let mut actual = [0u32; MODULE_LIMIT];
    let actual = marked_actual(entry, sensitives, &mut actual);
    put_text(expected, actual, plan, out, number)
}
