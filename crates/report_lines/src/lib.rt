// The lines of a season's report.
#![tactic(auto)]

ghost use Rattle.report_lines.specs.Report.{outcome_line, Put};

use lines::put_line;
use share_totals::Share;
use tables::Refusal;

pub mod inner;

// Writes the line of an outcome from place 0.
pub fn put_outcome(out: &mut [u8], outcome: Result<Share, Refusal>) -> Result<usize, Refusal>
    ensures { Put (outcome_line outcome) out.old result out.new }
{
    match outcome {
        Ok(
            Share {
                eligible,
                planned,
                quotient,
                remainder,
            },
        ) => put_line(
            out,
            b"share",
            &[],
            &[eligible, planned, quotient, remainder],
        ),
        Err(refusal) => put_line(out, b"refused", &[], &[refusal.number()]),
    }
}
