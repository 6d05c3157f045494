// The project's tables.
#![tactic(auto)]

pub mod inner;

// A module's number.
#[derive(Clone, Copy)]
pub struct ModuleIdx(u32);

impl ModuleIdx {
    // The missing mark.
    pub const MISSING: u32 = 4294967295;
    // The largest module number.
    pub const LARGEST: u32 = 4095;
}

// What a record's target is. No Option or Result: an external target has a number too, and is no failure; the scope names `let .. else` on this enum answer.
#[derive(Clone, Copy)]
pub enum Target {
    Missing,
    External(u32),
    Normal(u32),
}

// Why a call is turned back, the error of each Result here; `as u32` is the number that the scope gives it.
#[derive(Clone, Copy, PartialEq, Eq, Debug)]
pub enum Refusal {
    // A list is over its limit, its columns differ in length, there is no module, or the columns' bounds don't fit.
    ListSize = 1,
    // A value is outside its column, or the names break their form.
    ColumnValue = 2,
    // A first column falls.
    RowOrder = 3,
    // Rows disagree.
    RowConflict = 4,
    // A root, entry, chunk or seed that doesn't exist or isn't analysed, or too many seeds.
    Argument = 5,
    // A lent slice is too short.
    ShortSlice = 6,
    // A text isn't of the form, or can't be read.
    Text = 7,
    // The slices for circles are too short for all of them.
    ShortForCircles = 8,
    // A lent plan isn't one mark for each module.
    PlanForm = 9,
    // A module's `newer` is neither missing nor the number of a later row.
    NewerRow = 10,
    // A season has no place for another project.
    PastSeason = 11,
}

impl Refusal {
    ghost use Rattle.std.specs.Prelude.{◌≡◌};
    ghost use Rattle.tables.specs.Answers.{number};

    // Its number.
    pub fn number(self) -> u32
        ensures { result ≡ number self }
    {
        self as u32
    }
}
