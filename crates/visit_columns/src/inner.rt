// For crates above, on tested tables.
ghost use Rattle.std.specs.Prelude.{◌≡◌, length};
ghost use Rattle.tables.specs.Readings.{modules};
ghost use Rattle.visit_columns.specs.inner.OverTable.{PreparedAs, Prepared};

use current_columns::inner::Current;
use load_order::inner::arrange_table;
use table::{CHUNK_LIMIT, MODULE_LIMIT, ROW_LIMIT};
use tables::inner::first_rows;
use triggers::inner::{write_triggers, write_ways};

// Room for the columns.
#[derive(Drop)]
pub struct VisitSpace {
    ways: [u32; MODULE_LIMIT],
    starts: [u32; MODULE_LIMIT + 1],
    triggers: [u32; ROW_LIMIT],
    member_starts: [u32; CHUNK_LIMIT + 1],
    load_starts: [u32; CHUNK_LIMIT + 1],
    loads: [u32; ROW_LIMIT],
}

impl VisitSpace {
    pub const EMPTY: VisitSpace = VisitSpace {
        ways: [0; MODULE_LIMIT],
        starts: [0; MODULE_LIMIT + 1],
        triggers: [0; ROW_LIMIT],
        member_starts: [0; CHUNK_LIMIT + 1],
        load_starts: [0; CHUNK_LIMIT + 1],
        loads: [0; ROW_LIMIT],
    };
}

// What the visits read besides the members: in which way modules execute, the first rows of modules, what record rows trigger, the first rows of members' chunks
// and of imports' chunks, and the imported chunks in load order. The wraps that they are made with aren't kept, so clauses name them, and the type
// has no invariant: a planned load would hold its wraps, an array more, through all visits.
#[derive(Drop)]
pub struct VisitColumns<'a> {
    pub ways: &'a [u32],
    pub starts: &'a [u32],
    pub triggers: &'a [u32],
    pub member_starts: &'a [u32],
    pub load_starts: &'a [u32],
    pub loads: &'a [u32],
}

// Makes the columns that the visits read, of a table with these wraps in the place of its own.
#[tactic(auto, unfolding(current_columns::specs::AsProject::project))]
pub fn prepare_wrapped<'a>(
    current: &Current,
    wraps: &[u32],
    space: &'a mut VisitSpace,
) -> VisitColumns<'a>
    requires wraps { length wraps.now ≡ modules current.now }
    ensures { PreparedAs current.now wraps.now result }
{
    let n = current.modules();
    let chunks = current.chunks();
    let columns = current.columns();
    let ways = &mut space.ways;
    let ways = &mut ways[..n];
    write_ways(columns, wraps, ways);
    let starts = &mut space.starts;
    let starts = &mut starts[..n + 1];
    first_rows(columns.record_module, starts);
    let triggers = &mut space.triggers;
    let triggers = &mut triggers[..columns.record_module.len()];
    write_triggers(columns, wraps, triggers);
    let member_starts = &mut space.member_starts;
    let member_starts = &mut member_starts[..chunks + 1];
    first_rows(columns.member_chunk, member_starts);
    let load_starts = &mut space.load_starts;
    let load_starts = &mut load_starts[..chunks + 1];
    first_rows(columns.import_chunk, load_starts);
    let loads = &mut space.loads;
    let loads = &mut loads[..columns.imports.len()];
    arrange_table(columns, loads);
    VisitColumns {
        ways,
        starts,
        triggers,
        member_starts,
        load_starts,
        loads,
    }
}

// Makes the columns that the visits read, of a table.
#[tactic(auto, unfolding(current_columns::specs::AsProject::project))]
pub fn prepare_table<'a>(current: &Current, space: &'a mut VisitSpace) -> VisitColumns<'a>
    ensures { Prepared current.now result }
{
    let columns = current.columns();
    prepare_wrapped(current, columns.wrap, space)
}
