// For crates above, on tested tables: one line of an entry's page.
ghost use Rattle.std.specs.Prelude.{◌≡◌, ◌≤◌, length};
ghost use Rattle.lines.specs.Lines.{PutAt};
ghost use Rattle.wall_line.specs.Promise.{page_line_of};

use analysed_entries::inner::AnalysedEntry;
use entry_pages::inner::put_entry_text;
use order_analysis::inner::analyze;
use sensitivity::inner::mark_sensitive;
use table::MODULE_LIMIT;

// Writes one line of an entry's page, by its number, from place 0, and answers its length; past the last, 0.
#[tactic(auto, using(sensitivity::proofs::Fits::fits))]
pub fn put_whole_line(entry: &AnalysedEntry, out: &mut [u8], number: usize) -> usize
    requires room { 41 ≤ length out.old }
    ensures { PutAt out.old 0 (page_line_of entry.now.current.now entry.now.root number) out.new result }
{
    let current = entry.current;
    let n = current.modules();
    let mut plan = [0u32; MODULE_LIMIT];
    let plan = &mut plan[..n];
    analyze(current, plan);
    let mut sensitives = [0u32; MODULE_LIMIT];
    let sensitives = &mut sensitives[..n];
    mark_sensitive(current.columns(), sensitives);
    put_entry_text(entry, sensitives, plan, out, Some(number))
}
