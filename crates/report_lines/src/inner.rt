// For crates above.
ghost use Rattle.report_lines.specs.Report.{total_line, Put};

use lines::put_line;
use share_totals::Totals;
use share_totals::inner::total_numbers;
use tables::Refusal;

// Writes the closing line from place 0.
pub fn put_totals(out: &mut [u8], totals: Totals) -> Result<usize, Refusal>
    ensures { Put (total_line totals) out.old result out.new }
{
    let numbers = total_numbers(totals);
    put_line(out, b"total", &[], &numbers)
}
