ghost use Rattle.std.specs.Prelude.{◌≤◌, length, is_err, false};
ghost use Rattle.kt_cli.specs.Common.{Emits, utf8, IsIdle, IsMoment, IsPlan, IsWidth, item_limit, CommandResult, WritesNext, ExecutesAndRecords, ExecutesPlan, command_state, totals_and_warnings, planned_run, totals_text};
ghost use Rattle.kt_args.specs.declared.command.Command.TheVariants as command;

use crate::Exit;
use crate::commands::recorder::{Recorder, convert_store_fault};
use crate::messages::{
    print_selection_error, write_memory_error, write_run_fault, write_store_error, write_warnings,
};
use crate::output::exit::{FAILURE, exit_after_write, exit_status};
use kt_args::{CaseOptions, FilterRule};
use kt_base::{Decimal, Items, OutputFault, Text, emit_all};
use kt_plan::{CaseSelection, CommandSelection, World, prepare_plan, select_cases};
use kt_sched::{Job, Launcher, RunFault, Totals, run_cases};
use kt_store::ResultStore;
use std::alloc::Global;
use std::io::Write;

/// A plan with the number of its run, and with its width: the maximum number of cases that are
/// active at once.
#[derive(Drop)]
struct NumberedPlan {
    plan: Items<Job>,
    width: u32,
    number: u64,
}

/// Executes a plan, puts each entry into the plan's run of the results store, and then prints the
/// entry's result line.
///
/// Returns the totals of the run or the fault that ended it, and the result of writing the lines.
fn record_cases<L: Launcher, R: ResultStore, O: Write>(
    alloc: Global,
    numbered: NumberedPlan,
    launcher: &mut L,
    results: &mut R,
    out: &mut O,
) -> (Result<Totals, RunFault>, Result<(), OutputFault>)
    requires plan { IsPlan numbered.plan }
    requires width { IsWidth numbered.width }
    requires idle { IsIdle (L.running launcher.old) (L.pending launcher.old) }
    ensures records { ExecutesAndRecords L.Launcher R.StoreSpec numbered.plan numbered.width numbered.number
        (command_state launcher.old results.old (O.contents out.old))
        (command_state launcher.new results.new (O.contents out.new)) result.0 (is_err result.1) }
    ensures idle { IsIdle (L.running launcher.new) (L.pending launcher.new) }
{
    let NumberedPlan {
        plan,
        width,
        number,
    } = numbered;
    let mut recorder = Recorder {
        results,
        out,
        number,
        written: Ok(()),
    };
    let answer = run_cases(alloc, plan, width, launcher, &mut recorder);
    // No effect: these uses show the prover that the recorder's borrows end here.
    let _ = &*recorder.results;
    let _ = &*recorder.out;
    (answer, recorder.written)
}

/// Writes an empty line and the totals of a run, for example `1/3 passed (2 failed)`. `good` of the
/// `total` cases are good: they passed, were skipped or failed as expected. `bad` cases failed or
/// are broken.
fn write_totals<O: Write>(good: u64, total: u64, bad: u64, out: &mut O) -> Result<(), OutputFault>
    ensures { Emits (O.contents out.old) (O.contents out.new) (is_err result)
        (utf8 (totals_text good total bad)) }
{
    let passed = Decimal::new(good);
    let all = Decimal::new(total);
    let failed = Decimal::new(bad);
    emit_all(
        &[
            b"\n",
            passed.as_bytes(),
            b"/",
            all.as_bytes(),
            b" passed (",
            failed.as_bytes(),
            b" failed)\n",
        ],
        out,
    )
}

/// Writes the totals of a run, and a warning for each filter in `options` that selects no case.
/// `unmatched` are the indexes of these filters. If `written`, the result of the earlier writes, is
/// an error, writes nothing and returns this error.
fn write_totals_and_warnings<O: Write>(
    written: Result<(), OutputFault>,
    totals: Totals,
    options: &CaseOptions,
    unmatched: &[usize],
    out: &mut O,
) -> Result<(), OutputFault>
    ensures { WritesNext (O.contents out.old) (is_err written) (O.contents out.new) (is_err result)
        (totals_and_warnings totals.good totals.total totals.bad options.now.filters
        unmatched.now) }
{
    written?;
    write_totals(totals.good, totals.total, totals.bad, out)?;
    write_warnings(options, unmatched, out)
}

/// A plan before its run begins, with the options of the command.
#[derive(Drop)]
struct PlannedRun<'a> {
    /// The jobs of the selected cases.
    plan: Items<Job>,
    /// The maximum number of test cases that run at the same time, 1 to 256.
    width: u32,
    /// The options of the command.
    options: &'a CaseOptions,
    /// The indexes of the filters in `options` that select no case.
    unmatched: Items<usize>,
    /// The start of the run, in milliseconds since 1970-01-01 UTC.
    moment: u64,
}

/// Begins a run, executes its plan, finishes the run, and returns the exit status of `test`.
fn run_plan<L: Launcher, R: ResultStore, O: Write>(
    alloc: Global,
    planned: PlannedRun<'_>,
    launcher: &mut L,
    results: &mut R,
    out: &mut O,
) -> Exit
    requires plan { IsPlan planned.plan }
    requires width { IsWidth planned.width }
    requires few { length planned.plan ≤ item_limit }
    requires moment { IsMoment planned.moment }
    requires idle { IsIdle (L.running launcher.old) (L.pending launcher.old) }
    ensures ran { ExecutesPlan L.Launcher R.StoreSpec
        (record {
          plan = planned.entry.plan;
          width = planned.entry.width;
          words = planned.entry.options.now.filters;
          unmatched = planned.entry.unmatched;
          moment = planned.entry.moment;
        })
        (command_state launcher.old results.old (O.contents out.old))
        (command_state launcher.new results.new (O.contents out.new)) result.status }
    ensures idle { IsIdle (L.running launcher.new) (L.pending launcher.new) }
{
    let PlannedRun {
        plan,
        width,
        options,
        unmatched,
        moment,
    } = planned;
    let total = plan.len() as u32;
    let number = match results.begin(total, moment) {
        Ok(number) => number,
        Err(fault) => return exit_after_write(write_store_error(fault, out), FAILURE),
    };
    let numbered = NumberedPlan {
        plan,
        width,
        number,
    };
    let (answer, written) = record_cases(alloc, numbered, launcher, results, out);
    match answer {
        Err(fault) => exit_after_write(write_run_fault(written, fault, out), FAILURE),
        Ok(totals) => match results.finish(number) {
            Err(fault) => {
                let fault = RunFault::SinkFailed(convert_store_fault(fault));
                exit_after_write(write_run_fault(written, fault, out), FAILURE)
            }
            Ok(()) => {
                let unmatched = unmatched.as_slice();
                let all = write_totals_and_warnings(written, totals, options, unmatched, out);
                exit_after_write(all, exit_status(totals.bad, unmatched))
            }
        },
    }
}

/// Executes `test`: runs the selected cases, records them in a new run, and returns the exit
/// status.
///
/// The exit status is 0 if no case failed or is broken and every filter selects a case, else 1. It
/// is 3 if the arguments are wrong, and 2 after any other fault.
///
/// `results` is the open results file. `file` is its path, and only the contract uses it.
pub fn test<W: World, R: ResultStore, O: Write>(
    alloc: Global,
    options: &CaseOptions,
    file: &Text,
    world: &mut W,
    results: &mut R,
    out: &mut O,
) -> Exit
    requires { IsIdle (W.running world.old) (W.pending world.old) }
    ensures did { CommandResult W.World R.StoreSpec (command.Test options.now file.now)
        (command_state world.old results.old (O.contents out.old))
        (command_state world.new results.new (O.contents out.new)) result.status }
    ensures idle { IsIdle (W.running world.new) (W.pending world.new) }
{
    let picked = match select_cases(alloc, FilterRule::AnyFilters, options, world) {
        Ok(picked) => picked,
        Err(fault) => return print_selection_error(fault, out),
    };
    let CommandSelection { settings, chosen } = picked;
    let CaseSelection { cases, unmatched } = chosen;
    let plan = match prepare_plan(alloc, &settings.config, cases, world) {
        Ok(plan) => plan,
        Err(refusal) => return exit_after_write(write_memory_error(refusal, out), FAILURE),
    };
    let moment = world.now();
    let planned = PlannedRun {
        plan,
        width: settings.config.parallelism(),
        options,
        unmatched,
        moment,
    };
    run_plan(alloc, planned, world, results, out)
}
