ghost use Rattle.std.specs.Prelude.{is_err};
ghost use Rattle.kt_cli.specs.Common.{IsIdle, IsPlan, ExecutesDebug, ExecutesWithoutStore};
ghost use Rattle.kt_args.specs.declared.command.Command.TheVariants as command;

use crate::Exit;
use crate::commands::recorder::Printer;
use crate::messages::{print_selection_error, write_memory_error, write_run_fault, write_warnings};
use crate::output::exit::{FAILURE, exit_after_write};
use kt_args::{CaseOptions, FilterRule};
use kt_base::{Items, OutputFault};
use kt_plan::{CaseSelection, CommandSelection, World, prepare_plan, select_cases};
use kt_sched::{Job, Launcher, RunFault, Totals, run_cases};
use std::alloc::Global;
use std::io::Write;

/// Executes a plan one case at a time, and prints the outputs and the result line of each case.
///
/// Returns the totals of the run or the fault that ended it, and the result of writing the output.
fn print_cases<L: Launcher, O: Write>(
    alloc: Global,
    plan: Items<Job>,
    launcher: &mut L,
    out: &mut O,
) -> (Result<Totals, RunFault>, Result<(), OutputFault>)
    requires plan { IsPlan plan }
    requires idle { IsIdle (L.running launcher.old) (L.pending launcher.old) }
    ensures debugged { ExecutesDebug L.Launcher plan launcher.old launcher.new
        (O.contents out.old) (O.contents out.new) (is_err result.1) result.0 }
    ensures idle { IsIdle (L.running launcher.new) (L.pending launcher.new) }
{
    let mut printer = Printer {
        out,
        written: Ok(()),
    };
    let answer = run_cases(alloc, plan, 1, launcher, &mut printer);
    // No effect: this use shows the prover that the printer's borrow ends here.
    let _ = &*printer.out;
    (answer, printer.written)
}

/// Executes `debug`: runs the first selected case, and prints its outputs and its result line.
///
/// Nothing is recorded. The exit status is 1 if the case failed or is broken, or if no case is
/// selected. It is 3 if the arguments are wrong, 2 after any other fault, and else 0.
pub fn debug<W: World, O: Write>(
    alloc: Global,
    options: &CaseOptions,
    world: &mut W,
    out: &mut O,
) -> Exit
    requires { IsIdle (W.running world.old) (W.pending world.old) }
    ensures asked { ExecutesWithoutStore W.World (command.Debug options.now) world.old world.new
        (O.contents out.old) (O.contents out.new) result.status }
    ensures idle { IsIdle (W.running world.new) (W.pending world.new) }
{
    let picked = match select_cases(alloc, FilterRule::OneCase, options, world) {
        Ok(picked) => picked,
        Err(fault) => return print_selection_error(fault, out),
    };
    let CommandSelection { settings, chosen } = picked;
    let CaseSelection { cases, unmatched } = chosen;
    if cases.is_empty() {
        let warned = write_warnings(options, unmatched.as_slice(), out);
        return exit_after_write(warned, 1);
    }
    let mut cases = cases.into_vec();
    cases.truncate(1);
    let plan = match prepare_plan(alloc, &settings.config, Items::from_vec(cases), world) {
        Ok(plan) => plan,
        Err(refusal) => return exit_after_write(write_memory_error(refusal, out), FAILURE),
    };
    let (answer, written) = print_cases(alloc, plan, world, out);
    match answer {
        Ok(totals) => exit_after_write(written, if totals.bad == 0 { 0 } else { 1 }),
        Err(fault) => exit_after_write(write_run_fault(written, fault, out), FAILURE),
    }
}
