// The reader of a project's text.
#![tactic(auto)]

ghost use Rattle.listing.specs.Reading.{Reads};
ghost use Rattle.listing.specs.AsTable.{ReadText};

mod columns;

use columns::{settle, spread};
use name_list::find_names;
use table::{COLUMNS, Table};
use tables::Refusal;
use text_rows::inner::read_lists;

// What was read of a text: how many values the columns have, and where the names begin and end in the text,
// which stays with the caller.
#[derive(Clone, Copy)]
pub struct Reading {
    pub values: usize,
    pub from: usize,
    pub to: usize,
}

// Reads a project's text into a table: its settings, where each column begins and the last ends, and the columns one after the other; or
// answers why it is refused. The names stay where they are; their part of the text is empty where it has no list of names.
pub fn read(
    text: &[u8],
    settings: &mut [u32; 2],
    bounds: &mut [u32; COLUMNS + 1],
    columns: &mut [u32; 32768],
) -> Result<Reading, Refusal>
    ensures { Reads text.now settings.old settings.new bounds.old bounds.new columns.old columns.new result }
{
    if 65536 < text.len() {
        return Err(Refusal::Text);
    }
    let mut row_values = [0u32; 32768];
    let mut ends = [0usize; 15];
    let Some(end) = read_lists(text, &mut row_values, &mut ends) else {
        return Err(Refusal::Text);
    };
    let [2, ..] = ends else {
        return Err(Refusal::Text);
    };
    let Some((from, to)) = find_names(text, end.at, (ends[1] - 2) / 8) else {
        return Err(Refusal::Text);
    };
    settle(&row_values, settings);
    spread(&row_values, &ends, bounds, columns);
    Ok(Reading {
        values: end.count - 2,
        from: from,
        to: to,
    })
}

// Room for the table of a text.
#[derive(Drop)]
pub struct TextSpace {
    settings: [u32; 2],
    bounds: [u32; COLUMNS + 1],
    columns: [u32; 32768],
}

impl TextSpace {
    pub const EMPTY: TextSpace = TextSpace {
        settings: [0; 2],
        bounds: [0; COLUMNS + 1],
        columns: [0; 32768],
    };
}

// Reads a project's text, with its names where it has them, as a table.
pub fn read_text<'a>(text: &'a [u8], space: &'a mut TextSpace) -> Result<Table<'a>, Refusal>
    ensures { ReadText text.entry.now result }
{
    let settings = &mut space.settings;
    let bounds = &mut space.bounds;
    let columns = &mut space.columns;
    let Reading { values, from, to } = read(text, settings, bounds, columns)?;
    Ok(Table::new(
        settings[0],
        settings[1],
        bounds,
        &columns[..values],
        &text[from..to],
    ))
}
