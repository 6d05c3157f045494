// For crates above: an entry's page, and one line of it, by its two sensitive orders and a plan, a mark a module.
ghost use Rattle.std.specs.Prelude.{◌≡◌, ◌+◌, ◌*◌, ◌<◌, ◌≤◌, length};
ghost use mathlib.Core.List.{flat_map};
ghost use Rattle.lists.specs.Words.{has};
ghost use Rattle.lines.specs.Lines.{PutAt};
ghost use Rattle.lines.specs.Writing.{Room, Put};
ghost use Rattle.tables.specs.Accepted.{Below};
ghost use Rattle.page_text.specs.Page.{text_by, text_room};
ghost use Rattle.page_text.specs.inner.Sheets.{line_with, page_with, numbered_with, text_with, Orders};

use lines::lines::Writer;
use page_lines::inner::put_page_line;
use page_rows::inner::lay_out;
use std::marker::Model;
use table::MODULE_LIMIT;

// What an entry's page is written from: the modules of the expected order and the others, and for each module of the table a place from 1 in both orders and a mark.
#[derive(Drop)]
struct Sheet<'a> {
    expected: &'a [u32],
    others: &'a [u32],
    expected_places: &'a [u32],
    actual_places: &'a [u32],
    plan: &'a [u32],
}

impl<'a> Model for Sheet<'a> {
    ghost use Rattle.std.specs.Prelude.{length};
    ghost use Rattle.tables.specs.Accepted.{Below};
    ghost use Rattle.page_text.specs.inner.Sheets.{SheetRows, Sheet};

    ghost Value = { SheetRows };

    ghost view = { λ s. record { expected = s.expected.now; others = s.others.now; expected_places = s.expected_places.now; actual_places = s.actual_places.now; plan = s.plan.now } };

    ghost invariant = { λ s. Sheet s.expected_places.now s.actual_places.now s.plan.now × Below (length s.plan.now) s.expected.now × Below (length s.plan.now) s.others.now };
}

impl<'a> Sheet<'a> {
    // Writes the line of a module.
    fn put_row(&self, page: &mut Writer, m: u32)
        requires row { m < length self.now.plan }
        requires room { Room 41 page.old }
        ensures line { Put (line_with self.now m) page.old page.new }
        ensures size { page.new.at ≡ page.old.at + 41 }
    {
        let row = m as usize;
        let expected = self.expected_places[row];
        let actual = self.actual_places[row];
        put_page_line(page, m, expected, actual, self.plan[row] != 0);
    }

    // Writes the lines of some modules in turn.
    fn put_rows(&self, page: &mut Writer, rows: &[u32])
        requires rows { Below (length self.now.plan) rows.now }
        requires room { Room (41 * length rows.now) page.old }
        ensures lines { Put (flat_map (line_with self.now) rows.now) page.old page.new }
        ensures size { page.new.at ≡ page.old.at + 41 * length rows.now }
    {
        for m in rows {
            self.put_row(page, *m);
        }
    }

    // Writes the whole page.
    fn put_page(&self, page: &mut Writer)
        requires { Room (41 * (length self.now.expected + length self.now.others)) page.old }
        ensures { Put (page_with self.now) page.old page.new }
    {
        self.put_rows(page, self.expected);
        self.put_rows(page, self.others);
    }

    // Writes one line, and past the last nothing.
    fn put_numbered(&self, page: &mut Writer, number: usize)
        requires { Room 41 page.old }
        ensures { Put (numbered_with self.now number) page.old page.new }
    {
        let first = self.expected.len();
        if number < first {
            self.put_row(page, self.expected[number]);
            return;
        }
        let rest = number - first;
        if rest < self.others.len() {
            self.put_row(page, self.others[rest]);
        }
    }

    // Writes one line, or the whole page where no number is given.
    fn put(&self, page: &mut Writer, number: Option<usize>)
        requires { Room (text_room (length self.now.expected + length self.now.others) number) page.old }
        ensures { Put (text_with self.now number) page.old page.new }
    {
        match number {
            None => self.put_page(page),
            Some(number) => self.put_numbered(page, number),
        }
    }
}

// Writes one line of an entry's page, by its number, or the page where no number is given, from place 0, and answers its length; past the last line 0.
pub fn put_text(
    expected: &[u32],
    actual: &[u32],
    plan: &[u32],
    out: &mut [u8],
    number: Option<usize>,
) -> usize
    requires orders { Orders expected.now actual.now (length plan.now) }
    requires room { text_room (length plan.now) number ≤ length out.old }
    ensures { PutAt out.old 0 (text_by expected.now actual.now (has plan.now) number) out.new result }
{
    let n = plan.len();
    let mut expected_places = [0u32; MODULE_LIMIT];
    let expected_places = &mut expected_places[..n];
    let mut actual_places = [0u32; MODULE_LIMIT];
    let actual_places = &mut actual_places[..n];
    let mut others = [0u32; MODULE_LIMIT];
    let count = lay_out(
        expected,
        actual,
        expected_places,
        actual_places,
        &mut others,
    );
    let sheet = Sheet {
        expected,
        others: &others[..count],
        expected_places,
        actual_places,
        plan,
    };
    let mut page = Writer::new(out);
    sheet.put(&mut page, number);
    page.len()
}
