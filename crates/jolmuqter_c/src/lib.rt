// What the static library exports: the operations as functions for C and Rust, on a project that is lent as a table. The answers are numbers, as
// `answer_codes` says.
#![tactic(auto)]

ghost use Rattle.std.specs.Prelude.{◌≡◌, []};
ghost use Rattle.tables.specs.Answers.{answer};
ghost use Rattle.table.specs.Table.{lent};
ghost use Rattle.table.specs.Lending.{as_lent};
ghost use Rattle.arrangement.specs.OfProject.{lent_named};
ghost use Rattle.answer_codes.specs.Calls.{Sort, Circles, Expected, Entries, Actual, Labels, Reach, OrderRisk, CycleRisk, Plan, Takings, Whole, Grounds, Share, Line, Page, Arrange, Load, Test};
ghost use Rattle.plan_check.specs.Promise.{judgement};
ghost use Rattle.load_trial.specs.Promise.{load_step};
ghost use Rattle.answer_codes.specs.Exported.{coded_judgement, coded_step, Exported};

use answer_codes::{code, judgement_code, step_code};
use refusal::test;
use table::Table;
use tables::Refusal;

// The number of each module, and the sorted list.
#[unsafe(no_mangle)]
pub extern "C" fn jolmuqter_sort_modules<'a>(
    runtime: u32,
    dynamic: u32,
    bounds: &'a [u32],
    columns: &'a [u32],
    names: &'a [u8],
    numbers: &mut [u32],
    sorted: &mut [u32],
) -> u64
    ensures { Exported Sort (lent runtime dynamic bounds.now columns.now names.now) numbers.old sorted.old result numbers.new sorted.new }
{
    code(sort_modules::sort_modules(
        &Table::new(runtime, dynamic, bounds, columns, names),
        numbers,
        sorted,
    ))
}

// The import circles: the paths one after the other, and their lengths.
#[unsafe(no_mangle)]
pub extern "C" fn jolmuqter_import_circles<'a>(
    runtime: u32,
    dynamic: u32,
    bounds: &'a [u32],
    columns: &'a [u32],
    names: &'a [u8],
    paths: &mut [u32],
    lengths: &mut [u32],
) -> u64
    ensures { Exported Circles (lent runtime dynamic bounds.now columns.now names.now) paths.old lengths.old result paths.new lengths.new }
{
    code(import_circles::import_circles(
        &Table::new(runtime, dynamic, bounds, columns, names),
        paths,
        lengths,
    ))
}

// The expected order of any module row.
#[unsafe(no_mangle)]
pub extern "C" fn jolmuqter_expected_order<'a>(
    runtime: u32,
    dynamic: u32,
    bounds: &'a [u32],
    columns: &'a [u32],
    names: &'a [u8],
    root: u32,
    order: &mut [u32],
) -> u64
    ensures { Exported (Expected root) (lent runtime dynamic bounds.now columns.now names.now) order.old [] result order.new [] }
{
    code(expected_order::expected_order(
        &Table::new(runtime, dynamic, bounds, columns, names),
        root,
        order,
    ))
}

// The expected order of any module rows, walked together.
#[unsafe(no_mangle)]
pub extern "C" fn jolmuqter_entries_order<'a>(
    runtime: u32,
    dynamic: u32,
    bounds: &'a [u32],
    columns: &'a [u32],
    names: &'a [u8],
    entries: &[u32],
    order: &mut [u32],
) -> u64
    ensures { Exported (Entries entries.now) (lent runtime dynamic bounds.now columns.now names.now) order.old [] result order.new [] }
{
    code(entries_order::entries_order(
        &Table::new(runtime, dynamic, bounds, columns, names),
        entries,
        order,
    ))
}

// The actual order of an analysed entry, and the hosts.
#[unsafe(no_mangle)]
pub extern "C" fn jolmuqter_actual_order<'a>(
    runtime: u32,
    dynamic: u32,
    bounds: &'a [u32],
    columns: &'a [u32],
    names: &'a [u8],
    root: u32,
    order: &mut [u32],
    hosts: &mut [u32],
) -> u64
    ensures { Exported (Actual root) (lent_named runtime dynamic bounds.now columns.now names.now) order.old hosts.old result order.new hosts.new }
{
    code(actual_order::actual_order(
        &Table::new(runtime, dynamic, bounds, columns, names),
        root,
        order,
        hosts,
    ))
}

// The label of each chunk.
#[unsafe(no_mangle)]
pub extern "C" fn jolmuqter_labels<'a>(
    runtime: u32,
    dynamic: u32,
    bounds: &'a [u32],
    columns: &'a [u32],
    names: &'a [u8],
    labels: &mut [u32],
) -> u64
    ensures { Exported Labels (lent runtime dynamic bounds.now columns.now names.now) labels.old [] result labels.new [] }
{
    code(chunk_cycles::labels(
        &Table::new(runtime, dynamic, bounds, columns, names),
        labels,
    ))
}

// Whether a chunk reaches a cyclic one.
#[unsafe(no_mangle)]
pub extern "C" fn jolmuqter_chunk_reach<'a>(
    runtime: u32,
    dynamic: u32,
    bounds: &'a [u32],
    columns: &'a [u32],
    names: &'a [u8],
    chunk: u32,
) -> u64
    ensures { Exported (Reach chunk) (lent runtime dynamic bounds.now columns.now names.now) [] [] result [] [] }
{
    code(chunk_cycles::chunk_reach(&Table::new(runtime, dynamic, bounds, columns, names), chunk))
}

// The order risk of an analysed entry.
#[unsafe(no_mangle)]
pub extern "C" fn jolmuqter_order_risk<'a>(
    runtime: u32,
    dynamic: u32,
    bounds: &'a [u32],
    columns: &'a [u32],
    names: &'a [u8],
    root: u32,
    risk: &mut [u32],
) -> u64
    ensures { Exported (OrderRisk root) (lent_named runtime dynamic bounds.now columns.now names.now) risk.old [] result risk.new [] }
{
    code(order_risk::order_risk(
        &Table::new(runtime, dynamic, bounds, columns, names),
        root,
        risk,
    ))
}

// The cycle risk of an analysed entry.
#[unsafe(no_mangle)]
pub extern "C" fn jolmuqter_cycle_risk<'a>(
    runtime: u32,
    dynamic: u32,
    bounds: &'a [u32],
    columns: &'a [u32],
    names: &'a [u8],
    root: u32,
    risk: &mut [u32],
) -> u64
    ensures { Exported (CycleRisk root) (lent runtime dynamic bounds.now columns.now names.now) risk.old [] result risk.new [] }
{
    code(cycle_risk::cycle_risk(
        &Table::new(runtime, dynamic, bounds, columns, names),
        root,
        risk,
    ))
}

// The plan from lent seeds.
#[unsafe(no_mangle)]
pub extern "C" fn jolmuqter_plan_from_seeds<'a>(
    runtime: u32,
    dynamic: u32,
    bounds: &'a [u32],
    columns: &'a [u32],
    names: &'a [u8],
    seeds: &[u32],
    plan: &mut [u32],
) -> u64
    ensures { Exported (Plan seeds.now) (lent runtime dynamic bounds.now columns.now names.now) plan.old [] result plan.new [] }
{
    code(wrap_plan::plan_from_seeds(
        &Table::new(runtime, dynamic, bounds, columns, names),
        seeds,
        plan,
    ))
}

// The same by a worklist.
#[unsafe(no_mangle)]
pub extern "C" fn jolmuqter_plan_by_worklist<'a>(
    runtime: u32,
    dynamic: u32,
    bounds: &'a [u32],
    columns: &'a [u32],
    names: &'a [u8],
    seeds: &[u32],
    plan: &mut [u32],
) -> u64
    ensures { Exported (Plan seeds.now) (lent runtime dynamic bounds.now columns.now names.now) plan.old [] result plan.new [] }
{
    code(plan_by_worklist::plan_by_worklist(
        &Table::new(runtime, dynamic, bounds, columns, names),
        seeds,
        plan,
    ))
}

// That worklist: its modules in the order in which they are taken, and how many are listed after each number of takings.
#[unsafe(no_mangle)]
pub extern "C" fn jolmuqter_takings_from_seeds<'a>(
    runtime: u32,
    dynamic: u32,
    bounds: &'a [u32],
    columns: &'a [u32],
    names: &'a [u8],
    seeds: &[u32],
    list: &mut [u32],
    lengths: &mut [u32],
) -> u64
    ensures { Exported (Takings seeds.now) (lent runtime dynamic bounds.now columns.now names.now) list.old lengths.old result list.new lengths.new }
{
    code(takings_from_seeds::takings_from_seeds(
        &Table::new(runtime, dynamic, bounds, columns, names),
        seeds,
        list,
        lengths,
    ))
}

// Whether a plan made elsewhere is accepted with these seeds, or what it breaks first.
#[unsafe(no_mangle)]
pub extern "C" fn jolmuqter_check_plan<'a>(
    runtime: u32,
    dynamic: u32,
    bounds: &'a [u32],
    columns: &'a [u32],
    names: &'a [u8],
    seeds: &[u32],
    plan: &[u32],
) -> u64
    ensures { result ≡ coded_judgement (judgement (lent runtime dynamic bounds.now columns.now names.now) seeds.now plan.now) }
{
    judgement_code(plan_check::check_plan(
        &Table::new(runtime, dynamic, bounds, columns, names),
        seeds,
        plan,
    ))
}

// The plan of the whole analysis.
#[unsafe(no_mangle)]
pub extern "C" fn jolmuqter_plan<'a>(
    runtime: u32,
    dynamic: u32,
    bounds: &'a [u32],
    columns: &'a [u32],
    names: &'a [u8],
    plan: &mut [u32],
) -> u64
    ensures { Exported Whole (lent_named runtime dynamic bounds.now columns.now names.now) plan.old [] result plan.new [] }
{
    code(order_analysis::analyze_execution_order(
        &Table::new(runtime, dynamic, bounds, columns, names),
        plan,
    ))
}

// The ground of each module's sensitivity.
#[unsafe(no_mangle)]
pub extern "C" fn jolmuqter_grounds<'a>(
    runtime: u32,
    dynamic: u32,
    bounds: &'a [u32],
    columns: &'a [u32],
    names: &'a [u8],
    grounds: &mut [u32],
) -> u64
    ensures { Exported Grounds (lent runtime dynamic bounds.now columns.now names.now) grounds.old [] result grounds.new [] }
{
    code(grounds::grounds(
        &Table::new(runtime, dynamic, bounds, columns, names),
        grounds,
    ))
}

// The share of the eligible modules that are planned.
#[unsafe(no_mangle)]
pub extern "C" fn jolmuqter_share<'a>(
    runtime: u32,
    dynamic: u32,
    bounds: &'a [u32],
    columns: &'a [u32],
    names: &'a [u8],
    share: &mut [u32],
) -> u64
    ensures { Exported Share (lent_named runtime dynamic bounds.now columns.now names.now) share.old [] result share.new [] }
{
    code(shares::write_share(&Table::new(runtime, dynamic, bounds, columns, names), share))
}

// The page of an analysed entry, by grounds and a plan that were made before.
#[unsafe(no_mangle)]
pub extern "C" fn jolmuqter_entry_page<'a>(
    runtime: u32,
    dynamic: u32,
    bounds: &'a [u32],
    columns: &'a [u32],
    names: &'a [u8],
    root: u32,
    grounds: &'a [u32],
    plan: &'a [u32],
    page: &mut [u8],
) -> u64
    ensures { Exported (Page root grounds.now plan.now) (lent_named runtime dynamic bounds.now columns.now names.now) page.old [] result page.new [] }
{
    code(wall_page::entry_page(
        &Table::new(runtime, dynamic, bounds, columns, names),
        grounds,
        plan,
        root,
        page,
    ))
}

// One line of an analysed entry's page, by its number from 0.
#[unsafe(no_mangle)]
pub extern "C" fn jolmuqter_page_line<'a>(
    runtime: u32,
    dynamic: u32,
    bounds: &'a [u32],
    columns: &'a [u32],
    names: &'a [u8],
    root: u32,
    number: u32,
    line: &mut [u8],
) -> u64
    ensures { Exported (Line root number) (lent_named runtime dynamic bounds.now columns.now names.now) line.old [] result line.new [] }
{
    code(wall_line::page_line(
        &Table::new(runtime, dynamic, bounds, columns, names),
        root,
        number,
        line,
    ))
}

// The members of each chunk as `sort_chunk_modules` arranges them, at the chunk's member rows.
#[unsafe(no_mangle)]
pub extern "C" fn jolmuqter_sort_chunk_modules<'a>(
    runtime: u32,
    dynamic: u32,
    bounds: &'a [u32],
    columns: &'a [u32],
    names: &'a [u8],
    members: &mut [u32],
) -> u64
    ensures { Exported (Arrange names.now) (lent runtime dynamic bounds.now columns.now names.now) members.old [] result members.new [] }
{
    code(sort_chunk_modules::sort_chunk_modules(
        &Table::new(runtime, dynamic, bounds, columns, names),
        members,
    ))
}

// A step of an analysed entry's load with a plan, by its number from 0.
#[unsafe(no_mangle)]
pub extern "C" fn jolmuqter_load_step<'a>(
    runtime: u32,
    dynamic: u32,
    bounds: &'a [u32],
    columns: &'a [u32],
    names: &'a [u8],
    root: u32,
    number: u32,
    plan: &'a [u32],
) -> u64
    ensures { result ≡ coded_step (load_step (lent_named runtime dynamic bounds.now columns.now names.now) root plan.now number) }
{
    step_code(load_trial::load_step(
        &Table::new(runtime, dynamic, bounds, columns, names),
        root,
        plan,
        number,
    ))
}

// All steps of an analysed entry's load with a plan: their modules, and their hosts.
#[unsafe(no_mangle)]
pub extern "C" fn jolmuqter_load_run<'a>(
    runtime: u32,
    dynamic: u32,
    bounds: &'a [u32],
    columns: &'a [u32],
    names: &'a [u8],
    root: u32,
    plan: &'a [u32],
    steps: &mut [u32],
    hosts: &mut [u32],
) -> u64
    ensures { Exported (Load root plan.now) (lent_named runtime dynamic bounds.now columns.now names.now) steps.old hosts.old result steps.new hosts.new }
{
    code(load_trial::load_run(
        &Table::new(runtime, dynamic, bounds, columns, names),
        root,
        plan,
        steps,
        hosts,
    ))
}

// The test of a table as an operation whose count is 0.
fn tested(table: &Table) -> Result<usize, Refusal>
    ensures { result ≡ answer (as_lent table.now).refused 0 }
{
    test(table)?;
    Ok(0)
}

// The test of the tables alone: 0 if every operation would go on.
#[unsafe(no_mangle)]
pub extern "C" fn jolmuqter_refusal<'a>(
    runtime: u32,
    dynamic: u32,
    bounds: &'a [u32],
    columns: &'a [u32],
    names: &'a [u8],
) -> u64
    ensures { Exported Test (lent runtime dynamic bounds.now columns.now names.now) [] [] result [] [] }
{
    code(tested(&Table::new(runtime, dynamic, bounds, columns, names)))
}
