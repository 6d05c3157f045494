// For crates above: a tested table, as it is read.
ghost use Rattle.std.specs.Prelude.{◌≡◌, ◌≤◌, map, length};
ghost use Rattle.tables.specs.Readings.{modules, chunks};
ghost use Rattle.tables.specs.Refusal.{module_limit, chunk_limit, row_limit};
ghost use Rattle.tables.specs.Accepted.{Accepted};
ghost use Rattle.lists.specs.Words.{up_to};
ghost use Rattle.replacement.specs.Replacement.{latest, as_read};
ghost use Rattle.table.specs.Table.{current};
ghost use Rattle.table.specs.Lending.{written};

use replacement::inner::{find_latest, read_through};
use std::marker::Model;
use table::{
    CANONICAL, CHAIN_LINK, CHAIN_SYMBOL, CHUNK, DEPENDED, DEPENDED_REFERENCE, DEPENDENCY,
    DEPENDENCY_MODULE, ENTRY, ENTRY_CHUNK, EXPORTS, IMPORT_CHUNK, IMPORTS, INCLUDED, MEMBER,
    MEMBER_CHUNK, MODULE_LIMIT, NEWER, NORMAL, ORDER, OWNER, READS, REFERENCE_FORM,
    REFERENCE_STATEMENT, REFERENCE_SYMBOL, ROW_LIMIT, SEED, SENSITIVE, STATEMENT_INCLUDED,
    STATEMENT_MODULE, Table, USE_RECORD, USE_STATEMENT, WRAP,
};

// Room for the columns that aren't read as they were lent: record targets and dependencies.
#[derive(Drop)]
pub struct ReadSpace {
    pub targets: [u32; ROW_LIMIT],
    pub dependencies: [u32; ROW_LIMIT],
}

impl ReadSpace {
    pub const EMPTY: ReadSpace = ReadSpace {
        targets: [0; ROW_LIMIT],
        dependencies: [0; ROW_LIMIT],
    };
}

// The settings and columns of a table. Contracts see them as a project, and nothing is asked of it: functions over the same columns ask for different
// facts (`Fit`, `Modules`, `Kinds`, `Records`, ..), so these are clauses, and a type with one of them would ask more of the others.
#[derive(Drop)]
pub struct Columns<'a> {
    pub runtime: u32,
    pub dynamic: u32,
    pub normal: &'a [u32],
    pub included: &'a [u32],
    pub sensitive: &'a [u32],
    pub reads: &'a [u32],
    pub exports: &'a [u32],
    pub wrap: &'a [u32],
    pub chunk: &'a [u32],
    pub newer: &'a [u32],
    pub record_module: &'a [u32],
    pub record_kind: &'a [u32],
    pub record_target: &'a [u32],
    pub dependency_module: &'a [u32],
    pub dependency: &'a [u32],
    pub statement_module: &'a [u32],
    pub statement_included: &'a [u32],
    pub use_statement: &'a [u32],
    pub use_record: &'a [u32],
    pub owner: &'a [u32],
    pub canonical: &'a [u32],
    pub chain_symbol: &'a [u32],
    pub chain_link: &'a [u32],
    pub reference_statement: &'a [u32],
    pub reference_form: &'a [u32],
    pub reference_symbol: &'a [u32],
    pub depended_reference: &'a [u32],
    pub depended: &'a [u32],
    pub order: &'a [u32],
    pub member_chunk: &'a [u32],
    pub member: &'a [u32],
    pub import_chunk: &'a [u32],
    pub imports: &'a [u32],
    pub entry: &'a [u32],
    pub entry_chunk: &'a [u32],
    pub seed: &'a [u32],
}

impl<'a> Model for Columns<'a> {
    ghost use Rattle.tables.specs.Project.{Project};

    ghost Value = { Project };

    ghost use Rattle.current_columns.specs.AsProject.{project};

    ghost view = { project };
}

// A table that passed the tests, as it is read: record targets and dependencies through `newer`, all else as it was lent; or as it is written. Contracts see the project that it is.
// The field is open, so that the columns of any accepted project can be lent as one.
#[derive(Drop)]
pub struct Current<'a> {
    pub columns: Columns<'a>,
}

impl<'a> Model for Current<'a> {
    ghost use Rattle.tables.specs.Project.{Project};

    ghost Value = { Project };

    ghost use Rattle.current_columns.specs.Tested.{tested, IsAccepted};

    ghost view = { tested };

    ghost invariant = { IsAccepted };
}

impl<'a> Current<'a> {
    // Its settings and columns.
    pub fn columns(&self) -> &Columns<'a>
        ensures same { result.now ≡ self.now }
        ensures accepted { Accepted self.now }
    {
        &self.columns
    }

    // How many modules there are.
    #[tactic(auto, unfolding(crate::specs::AsProject::project))]
    pub fn modules(&self) -> usize
        ensures count { result ≡ modules self.now }
        ensures few { result ≤ module_limit }
        ensures accepted { Accepted self.now }
    {
        self.columns.normal.len()
    }

    // How many chunks there are.
    #[tactic(auto, unfolding(crate::specs::AsProject::project))]
    pub fn chunks(&self) -> usize
        ensures count { result ≡ chunks self.now }
        ensures few { result ≤ chunk_limit }
        ensures accepted { Accepted self.now }
    {
        self.columns.order.len()
    }

    // The same with other members.
    #[tactic(auto, unfolding(crate::specs::AsProject::project))]
    pub fn with_members<'b>(&self, member: &'b [u32]) -> Current<'b>
    where
        'a: 'b,
        requires { Accepted (record self.now { member = member.now }) }
        ensures { result ≡ record self.now { member = member.now } }
    {
        Current {
            columns: Columns {
                member,
                ..self.columns
            },
        }
    }
}

// A column as it is read, at the front of an array; `found` has the module that is read for each.
fn read_column<'a>(
    newer: &[u32],
    found: &[u32],
    column: &[u32],
    out: &'a mut [u32; ROW_LIMIT],
) -> &'a [u32]
    requires found { found.now ≡ map (latest newer.now) (up_to (length newer.now)) }
    requires rows { length column.now ≤ row_limit }
    ensures { result.now ≡ as_read newer.now column.now }
{
    let part = &mut out[..column.len()];
    read_through(found, column, part);
    part
}

// The table as it is written: record targets and dependencies too as they were lent.
#[tactic(auto, unfolding(table::specs::Table::table, table::specs::Table::read, crate::specs::AsProject::project))]
fn as_written<'t>(table: &Table<'t>) -> Columns<'t>
    ensures { result ≡ written table.now }
{
    Columns {
        runtime: table.runtime,
        dynamic: table.dynamic,
        normal: table.column(NORMAL),
        included: table.column(INCLUDED),
        sensitive: table.column(SENSITIVE),
        reads: table.column(READS),
        exports: table.column(EXPORTS),
        wrap: table.column(WRAP),
        chunk: table.column(CHUNK),
        newer: table.column(NEWER),
        record_module: table.importers,
        record_kind: table.kinds,
        record_target: table.targets,
        dependency_module: table.column(DEPENDENCY_MODULE),
        dependency: table.column(DEPENDENCY),
        statement_module: table.column(STATEMENT_MODULE),
        statement_included: table.column(STATEMENT_INCLUDED),
        use_statement: table.column(USE_STATEMENT),
        use_record: table.column(USE_RECORD),
        owner: table.column(OWNER),
        canonical: table.column(CANONICAL),
        chain_symbol: table.column(CHAIN_SYMBOL),
        chain_link: table.column(CHAIN_LINK),
        reference_statement: table.column(REFERENCE_STATEMENT),
        reference_form: table.column(REFERENCE_FORM),
        reference_symbol: table.column(REFERENCE_SYMBOL),
        depended_reference: table.column(DEPENDED_REFERENCE),
        depended: table.column(DEPENDED),
        order: table.column(ORDER),
        member_chunk: table.column(MEMBER_CHUNK),
        member: table.column(MEMBER),
        import_chunk: table.column(IMPORT_CHUNK),
        imports: table.column(IMPORTS),
        entry: table.column(ENTRY),
        entry_chunk: table.column(ENTRY_CHUNK),
        seed: table.column(SEED),
    }
}

// A table that passed the tests, as it is written: nothing is read through `newer`.
pub fn written_table<'t>(table: &Table<'t>) -> Current<'t>
    requires { Accepted (written table.now) }
    ensures { result ≡ written table.now }
{
    Current {
        columns: as_written(table),
    }
}

// The table as it is read.
#[tactic(auto, unfolding(table::specs::Table::read, table::specs::Table::current, crate::specs::AsProject::project))]
pub fn read_table<'a, 't: 'a>(table: &Table<'t>, space: &'a mut ReadSpace) -> Current<'a>
    requires { Accepted (written table.now) }
    ensures { result ≡ current (written table.now) }
{
    let written = as_written(table);
    let newer = written.newer;
    let mut found = [0u32; MODULE_LIMIT];
    let found = &mut found[..newer.len()];
    find_latest(newer, found);
    let ReadSpace {
        targets,
        dependencies,
    } = space;
    Current {
        columns: Columns {
            record_target: read_column(newer, found, written.record_target, targets),
            dependency: read_column(newer, found, written.dependency, dependencies),
            ..written
        },
    }
}
