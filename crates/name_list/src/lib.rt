// The list `name` of a text, which follows the others: where its lines lie.
#![tactic(auto)]

ghost use Rattle.std.specs.Prelude.{◌≡◌};
ghost use Rattle.names.specs.Names.{names_fit};
ghost use Rattle.name_list.specs.Lying.{NamesLie};

use names::names_in;
use text_rows::inner::match_line;

// Whether these lines are the names of so many modules.
#[tactic(auto, using(crate::proofs::Sections::fits))]
fn names_fit(names: &[u8], modules: usize) -> bool
    ensures { result ≡ names_fit modules names.now }
{
    if names.is_empty() {
        return modules == 0;
    }
    names_in(names, modules)
}

// Where the names of so many modules begin and end in a text whose other lists end at `at`: an empty part at the text's end where it has no list.
#[tactic(auto, using(crate::proofs::Sections::sections))]
pub fn find_names(text: &[u8], at: usize, modules: usize) -> Option<(usize, usize)>
    ensures { NamesLie text.now at modules result }
{
    if text.len() <= at {
        return Some((text.len(), text.len()));
    }
    let from = match_line(text, at, b"name")?;
    if text.len() <= from {
        return None;
    }
    let to = text.len() - 1;
    if text[to] != 10 {
        return None;
    }
    if names_fit(&text[from..to], modules) {
        return Some((from, to));
    }
    None
}
