// The share of a project's text.
#![tactic(auto)]

ghost use Rattle.share_text.specs.Texts.{TextOutcome};

use listing::{TextSpace, read_text};
use share_totals::Share;
use shares::share;
use tables::Refusal;

// The outcome of a project's text: 7 where it is none.
pub fn share_of_text(text: &[u8]) -> Result<Share, Refusal>
    ensures { TextOutcome text.now result }
{
    let mut space = TextSpace::EMPTY;
    let table = read_text(text, &mut space)?;
    share(&table)
}
