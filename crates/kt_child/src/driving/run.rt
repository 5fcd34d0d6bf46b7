ghost use Rattle.kt_child.specs.Common.{IsIdle, IsPlan, IsWidth, RunsPlan, Trace, Leads, is_among, launcher_child_in, DriverStarts, DriverWaits, AttemptsDiffer, AttemptNumbersAreUnique, CallsMatchTraces, RunsFrom, driver_state};

use crate::Driver;
use kt_base::Items;
use kt_os::Os;
use kt_sched::{Job, Launcher, RunFault, Sink, Totals, run_cases};
use std::alloc::Global;

/// Runs the cases of a plan with a driver, at most `width` at once, and puts the entry of each case
/// into a sink.
///
/// The contract is a theorem about drivers. The program itself calls `run_cases` with a launcher
/// that contains a driver.
///
/// # Errors
///
/// - `NoMemory`: an allocation fails before the first child is started.
/// - `SinkFailed`: the sink can't record an entry. The running children are waited for, and pending
///   cleanups are run.
pub fn run_driver<O: Os + Drop, S: Sink>(
    alloc: Global,
    plan: Items<Job>,
    width: u32,
    driver: &mut Driver<O>,
    sink: &mut S,
) -> Result<Totals, RunFault>
    requires plan { IsPlan plan }
    requires width { IsWidth width }
    requires idle { IsIdle (launcher_child_in driver.old.running)
        (is_among driver.old.running.pending) }
    ensures ran { RunsPlan ⟦<Driver<O> as Launcher>⟧ S.Sink plan width driver.old driver.new
        sink.old sink.new result }
    ensures by_trace { (T : Trace)
        → Leads (DriverStarts O.leads) (DriverWaits O.leads) plan T driver.old driver.new
        → RunsFrom O.leads plan T (driver_state driver.old) driver.old driver.new }
{
    run_cases(alloc, plan, width, driver, sink)
}

/// Theorem: no two attempts of a driver have the same number. An attempt is the start of a body, or
/// of a program that lists its test cases. The premise is that a number is left for the earlier
/// attempt: its number is less than 2^64 - 1.
pub fn theorem_of_numbers<O: Os + Drop>()
    ensures { AttemptsDiffer O.leads }
{}

/// Theorem: two cases of a driver that have a running child or a pending cleanup at the same time
/// have different attempt numbers. The premise is that the driver began without children and
/// without pending cleanups.
pub fn theorem_of_names()
    ensures { AttemptNumbersAreUnique }
{}

/// Theorem: over a trace, the calls of a driver to the system are exactly those of the starts and
/// waits in the trace, in order. The premise is that the trace leads the driver from one state to
/// another.
///
/// Each poll and each kill is of one child. The outcome of the child follows from all results of
/// its polls and its kill (`Yields`). The starts, the reads and the removals use the paths of the
/// child's attempt.
pub fn theorem_of_traces<O: Os + Drop>()
    ensures { CallsMatchTraces O.leads }
{}
