// The operations that a replay list calls.
use crate::PLACES;
use actual_order::actual_order;
use chunk_cycles::{chunk_reach, labels};
use cycle_risk::cycle_risk;
use entries_order::entries_order;
use expected_order::expected_order;
use grounds::grounds;
use import_circles::import_circles;
use load_trial::load_run;
use order_analysis::analyze_execution_order;
use order_risk::order_risk;
use plan_by_worklist::plan_by_worklist;
use plan_check::check_plan;
use refusal::test;
use sort_chunk_modules::sort_chunk_modules;
use sort_modules::sort_modules;
use table::Table;
use tables::Refusal;
use wall_line::page_line;
use wrap_plan::plan_from_seeds;

// An operation that a list calls by number. An enum, since the number is read first and the call is made when all of its line is read.
#[derive(Clone, Copy)]
pub enum Operation {
    SortModules,
    ExpectedOrder,
    ActualOrder,
    Labels,
    ChunkReach,
    // Order risk and cycle risk, joined.
    BothRisks,
    PlanFromSeeds,
    WholeAnalysis,
    // The test of the tables alone.
    TableTest,
    OrderRisk,
    CycleRisk,
    EntriesOrder,
    Grounds,
    ImportCircles,
    // The check of a plan; the argument says how many seeds stand before its marks. Past the list, all of it is both.
    PlanCheck,
    ChunkModules,
    PlanByWorklist,
    LoadRun,
    // A line of a page, whose number is the first of the list.
    PageLine,
}

// A number that no operation has.
#[derive(Clone, Copy)]
pub struct UnknownOperation(pub u32);

impl TryFrom<u32> for Operation {
    type Error = UnknownOperation;

    fn try_from(number: u32) -> Result<Self, UnknownOperation> {
        match number {
            0 => Ok(Operation::SortModules),
            1 => Ok(Operation::ExpectedOrder),
            2 => Ok(Operation::ActualOrder),
            3 => Ok(Operation::Labels),
            4 => Ok(Operation::ChunkReach),
            5 => Ok(Operation::BothRisks),
            6 => Ok(Operation::PlanFromSeeds),
            7 => Ok(Operation::WholeAnalysis),
            8 => Ok(Operation::TableTest),
            9 => Ok(Operation::OrderRisk),
            10 => Ok(Operation::CycleRisk),
            11 => Ok(Operation::EntriesOrder),
            12 => Ok(Operation::Grounds),
            13 => Ok(Operation::ImportCircles),
            14 => Ok(Operation::PlanCheck),
            15 => Ok(Operation::ChunkModules),
            16 => Ok(Operation::PlanByWorklist),
            17 => Ok(Operation::LoadRun),
            18 => Ok(Operation::PageLine),
            _ => Err(UnknownOperation(number)),
        }
    }
}

impl Operation {
    // What it gives, none where such a call can't be made.
    pub(crate) fn answer(
        self,
        table: &Table,
        argument: u32,
        list: &[u32],
        first: &mut [u32],
        second: &mut [u32],
    ) -> Option<Result<usize, Refusal>> {
        let answer = match self {
            Operation::SortModules => sort_modules(table, first, second),
            Operation::ExpectedOrder => expected_order(table, argument, first),
            Operation::ActualOrder => actual_order(table, argument, first, second),
            Operation::Labels => labels(table, first),
            Operation::ChunkReach => chunk_reach(table, argument),
            Operation::BothRisks => both_risks(table, argument, first),
            Operation::PlanFromSeeds => plan_from_seeds(table, list, first),
            Operation::WholeAnalysis => analyze_execution_order(table, first),
            Operation::TableTest => test(table).map(|()| 0),
            Operation::OrderRisk => order_risk(table, argument, first),
            Operation::CycleRisk => cycle_risk(table, argument, first),
            Operation::EntriesOrder => entries_order(table, list, first),
            Operation::Grounds => grounds(table, first),
            Operation::ImportCircles => import_circles(table, first, second),
            Operation::PlanCheck => {
                let (seeds, plan) = list
                    .split_at_checked(argument as usize)
                    .unwrap_or((list, list));
                check_plan(table, seeds, plan).map(|judgement| judgement.number() as usize)
            }
            Operation::ChunkModules => sort_chunk_modules(table, first),
            Operation::PlanByWorklist => plan_by_worklist(table, list, first),
            Operation::LoadRun => load_run(table, argument, list, first, second),
            Operation::PageLine => line_numbers(table, argument, *list.first()?, first)?,
        };
        Some(answer)
    }
}

// Both kinds of risk of an entry, joined.
fn both_risks(table: &Table, root: u32, marks: &mut [u32]) -> Result<usize, Refusal> {
    let mut more = [0u32; PLACES];
    order_risk(table, root, marks)?;
    cycle_risk(table, root, &mut more)?;
    for (mark, more) in marks.iter_mut().zip(&more) {
        *mark = (*mark).max(*more);
    }
    Ok(marks.iter().filter(|mark| **mark == 1).count())
}

// A byte that no line of a page has.
const UNWRITTEN: u8 = 200;

// A line of a page, its bytes as numbers. What isn't written leaves what stands there.
fn line_numbers(
    table: &Table,
    root: u32,
    number: u32,
    out: &mut [u32],
) -> Option<Result<usize, Refusal>> {
    let mut line = [UNWRITTEN; 64];
    let answer = page_line(table, root, number, line.get_mut(..out.len())?);
    for (place, byte) in out.iter_mut().zip(&line) {
        if *byte != UNWRITTEN {
            *place = u32::from(*byte);
        }
    }
    Some(answer)
}
