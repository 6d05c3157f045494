// Trying a plan before loading it: the steps of an entry's load with the plan's modules wrapped.
#![tactic(auto)]

ghost use Rattle.std.specs.Prelude.{◌≡◌};
ghost use Rattle.arrangement.specs.OfProject.{as_named};
ghost use Rattle.load_trial.specs.Promise.{load_step, LoadRun};

use analysed_entries::inner::find_entry;
use arrangement::inner::read_arranged;
use current_columns::inner::ReadSpace;
use plan_conditions::inner::plan_fits;
use planned_load::LoadStep;
use planned_load::inner::{run_planned, step_planned};
use refusal::test_written;
use table::{ROW_LIMIT, Table};
use tables::Refusal;

// A step of an analysed entry's load with a plan, 0 or 1 for each module, by its number from 0; none past the last.
#[tactic(auto, unfolding(crate::specs::Promise::load_step, table::specs::Table::read, table::specs::Table::current, arrangement::specs::OfProject::named, tables::specs::Readings::is_analysed))]
pub fn load_step(
    table: &Table,
    root: u32,
    plan: &[u32],
    number: u32,
) -> Result<Option<LoadStep>, Refusal>
    ensures { result ≡ load_step (as_named table.now) root plan.now number }
{
    let written = test_written(table)?;
    let modules = written.modules();
    let Some(found) = find_entry(&written, root) else {
        return Err(Refusal::Argument);
    };
    if !plan_fits(plan, modules) {
        return Err(Refusal::PlanForm);
    }
    let mut space = ReadSpace::EMPTY;
    let mut arranged = [0u32; ROW_LIMIT];
    let current = read_arranged(table, &mut space, &mut arranged);
    let entry = found.as_read(&current);
    let step = step_planned(&entry, plan, number);
    Ok(step)
}

// All steps of an analysed entry's load with a plan: place n of `steps` is step n's module, and place n of `hosts` its host. The count is that of the steps.
#[tactic(auto, unfolding(table::specs::Table::read, table::specs::Table::current, arrangement::specs::OfProject::named, tables::specs::Readings::is_analysed))]
pub fn load_run(
    table: &Table,
    root: u32,
    plan: &[u32],
    steps: &mut [u32],
    hosts: &mut [u32],
) -> Result<usize, Refusal>
    ensures { LoadRun (as_named table.now) root plan.now steps.old hosts.old result steps.new hosts.new }
{
    let written = test_written(table)?;
    let places = written.modules();
    let Some(found) = find_entry(&written, root) else {
        return Err(Refusal::Argument);
    };
    if !plan_fits(plan, places) {
        return Err(Refusal::PlanForm);
    }
    if steps.len() < places {
        return Err(Refusal::ShortSlice);
    }
    if hosts.len() < places {
        return Err(Refusal::ShortSlice);
    }
    let mut space = ReadSpace::EMPTY;
    let mut arranged = [0u32; ROW_LIMIT];
    let current = read_arranged(table, &mut space, &mut arranged);
    let entry = found.as_read(&current);
    let count = run_planned(&entry, plan, steps, hosts);
    Ok(count)
}
