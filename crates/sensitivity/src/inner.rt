// Sensitive modules and their grounds, for crates above.
ghost use Rattle.std.specs.Prelude.{◌≡◌, ◌<◌, ◌≤◌, length};
ghost use Rattle.tables.specs.Readings.{modules};
ghost use Rattle.tables.specs.Refusal.{module_limit};
ghost use Rattle.sensitivity.specs.Marks.{wakes, uses_wrapped, ground_by, ground_of, sensitive_marks};
ghost use Rattle.sensitivity.specs.Ready.{Flags, Records, UseRows, Statements};

use current_columns::inner::Columns;
use std::marker::Model;
use table::{MODULE_LIMIT, ROW_LIMIT};
use tables::Target;
use tables::inner::{first_rows, resolve};
use threads::inner::Threads;

// Whether a record row is a kind 0 record to a normal target with wrap not 0.
#[tactic(auto, unfolding(current_columns::specs::AsProject::project, tables::specs::Readings::resolved, crate::specs::Marks::wakes))]
fn row_wakes(columns: &Columns, row: usize) -> bool
    requires { Records columns.now × (row < length columns.now.record_kind) }
    ensures { result ≡ wakes columns.now.normal columns.now.wrap columns.now.record_kind columns.now.record_target row }
{
    let kinds = columns.record_kind;
    if kinds[row] != 0 {
        return false;
    }
    let found = resolve(columns.normal, columns.record_target, row);
    let Target::Normal(t) = found else {
        return false;
    };
    let at = t as usize;
    columns.wrap[at] != 0
}

// 1 for a module's own flag, 2 for a use that wakes another module, 3 for both: the scope's numbers, which a slice holds.
fn ground_by(acts: bool, wakes: bool) -> u32
    ensures { result ≡ ground_by acts wakes }
{
    match (acts, wakes) {
        (true, true) => 3,
        (true, false) => 1,
        (false, true) => 2,
        (false, false) => 0,
    }
}

// Columns with the first statement row of each module, and one past them all, and the rows of each statement's uses. Contracts see the project that it is.
#[derive(Drop)]
struct StatementRows<'a, 'c> {
    columns: &'a Columns<'c>,
    starts: &'a [u32],
    uses: Threads<'a>,
}

impl<'a, 'c> Model for StatementRows<'a, 'c> {
    ghost use Rattle.tables.specs.Project.{Project};

    ghost Value = { Project };

    ghost use Rattle.sensitivity.specs.View.{project_of, AreFound};

    ghost view = { project_of };

    ghost invariant = { AreFound };
}

impl<'a, 'c> StatementRows<'a, 'c> {
    // Finds them, in three arrays.
    #[tactic(auto, unfolding(current_columns::specs::AsProject::project))]
    fn find(
        columns: &'a Columns<'c>,
        starts: &'a mut [u32; MODULE_LIMIT + 1],
        heads: &'a mut [u32; ROW_LIMIT],
        nexts: &'a mut [u32; ROW_LIMIT],
    ) -> StatementRows<'a, 'c>
        requires flags { Flags columns.now }
        requires records { Records columns.now }
        requires rows { UseRows columns.now }
        requires statements { Statements columns.now }
        requires few { modules columns.now ≤ module_limit }
        ensures { result ≡ columns.now }
    {
        let starts = &mut starts[..columns.normal.len() + 1];
        let heads = &mut heads[..columns.statement_included.len()];
        first_rows(columns.statement_module, starts);
        StatementRows {
            columns,
            starts,
            uses: Threads::new(columns.use_statement, heads, nexts),
        }
    }

    // Whether a module uses, in an included statement, such a record. Its statements are the rows from its start to the next one's;
    // the first that does stops the search.
    #[tactic(auto, using(crate::proofs::Searches::search_steps), unfolding(current_columns::specs::AsProject::project, crate::specs::Marks::uses_wrapped))]
    fn eagerly_triggers_interop_module(&self, m: usize) -> bool
        requires { m < modules self.now }
        ensures { result ≡ uses_wrapped self.now.normal self.now.wrap self.now.record_kind self.now.record_target self.now.statement_module self.now.statement_included self.now.use_statement self.now.use_record m }
    {
        let columns = self.columns;
        let mut found = false;
        // by number: a statement's uses are looked up by it
        'search: for s in self.starts[m]..self.starts[m + 1] {
            if columns.statement_included[s as usize] == 1 {
                for u in self.uses.rows(s) {
                    if row_wakes(columns, columns.use_record[u] as usize) {
                        found = true;
                        break 'search;
                    }
                }
            }
        }
        found
    }

    // The ground of a module's sensitivity, 0 for one that isn't sensitive. A set flag doesn't end the search.
    #[tactic(auto, unfolding(current_columns::specs::AsProject::project, crate::specs::Marks::ground_of))]
    fn is_order_sensitive(&self, m: usize) -> u32
        requires { m < modules self.now }
        ensures { result ≡ ground_of self.now m }
    {
        let columns = self.columns;
        if m == (columns.runtime as usize) {
            return 0;
        }
        if columns.normal[m] != 1 {
            return 0;
        }
        if columns.included[m] != 1 {
            return 0;
        }
        let acts = columns.sensitive[m] == 1;
        let wakes = self.eagerly_triggers_interop_module(m);
        ground_by(acts, wakes)
    }
}

// Marks the sensitive modules by their grounds.
#[tactic(auto, using(lists::proofs::Laws::map_up_to_written))]
pub fn mark_sensitive(columns: &Columns, marks: &mut [u32])
    requires flags { Flags columns.now }
    requires records { Records columns.now }
    requires rows { UseRows columns.now }
    requires statements { Statements columns.now × (length marks.old ≡ modules columns.now) }
    requires few { length marks.old ≤ module_limit }
    ensures { marks.new ≡ sensitive_marks columns.now }
{
    let mut starts = [0u32; MODULE_LIMIT + 1];
    let mut heads = [0u32; ROW_LIMIT];
    let mut nexts = [0u32; ROW_LIMIT];
    let statements = StatementRows::find(columns, &mut starts, &mut heads, &mut nexts);
    for (m, mark) in marks.iter_mut().enumerate() {
        *mark = statements.is_order_sensitive(m);
    }
}
