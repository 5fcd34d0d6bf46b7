ghost use Rattle.std.specs.Prelude.{◌≡◌, Some};
ghost use Rattle.kt_cli.specs.Common.{command_access, given_bytes, line_state, RunsArguments, ExecutesInFile, ExecutesOnHost, program, command_state, state, RejectsArguments};

use crate::commands::reporting::execute_report;
use crate::host::host_execution::create_world;
use crate::messages::print_close_fault;
use crate::no_store::NoStore;
use crate::{
    Exit, HostHandles, HostWorld, LineOutput, ResultsHost, execute, print_command_fault,
    print_driver_fault, print_store_fault,
};
use kt_args::{Command, CommandFault};
use kt_base::Text;
use kt_child::DriverFault;
use kt_os::{HostFiles, Os};
use kt_store::{Access, ResultStore};
use std::io::Write;

/// Executes a command over the open results store `results`, and returns its exit status.
///
/// `list`, `test` and `debug` also get the working directory and the environment of the process,
/// and a root directory for work directories, which is removed at the end. `outside` has the
/// handles of the host, and is returned in its state after the command.
fn execute_over_store<M: HostFiles + Drop, O: Os + Drop, P: ResultsHost, S: ResultStore, W: Write>(
    outside: HostHandles<M, O>,
    platform: &mut P,
    command: &Command,
    results: &mut S,
    out: &mut W,
) -> (Exit, HostHandles<M, O>)
    ensures { ExecutesOnHost (program M.HostFiles O.Os P.ResultsHost P.Results.StoreSpec)
        S.StoreSpec command.now
        (command_state (state platform.old outside) results.old (W.contents out.old))
        (command_state (state platform.new result.1) results.new (W.contents out.new))
        result.0.status }
{
    let Some(options) = command.case_options() else {
        return (
            execute_report(outside.alloc, command, results, out),
            outside,
        );
    };
    let around = match platform.process_env() {
        Ok(around) => around,
        Err(fault) => return (print_driver_fault(DriverFault::from(fault), out), outside),
    };
    let alloc = outside.alloc;
    let mut world = match create_world(outside, around, options) {
        Ok(world) => world,
        Err((fault, outside)) => return (print_driver_fault(fault, out), outside),
    };
    let exit = execute(alloc, command, &mut world, results, out);
    let HostWorld {
        machine,
        driver,
        ..
    } = world;
    // The root directory is removed even after a failed command.
    let os = driver.close();
    (exit, HostHandles { alloc, machine, os })
}

/// Returns the access with which a command opens its results file: `Record` for `test`, else
/// `Read`.
///
/// Only `test` and the reports have a results file.
fn command_access(command: &Command) -> Access
    ensures { result ≡ command_access command.now }
{
    if command.adds_run() {
        Access::Record
    } else {
        Access::Read
    }
}

/// Opens the results file `file`, executes a command over it, and closes the file. Returns the exit
/// status, which is 2 if the open or the close fails.
///
/// `outside` has the handles of the host, and is returned in its state after the command.
fn execute_in_file<M: HostFiles + Drop, O: Os + Drop, P: ResultsHost, W: Write>(
    outside: HostHandles<M, O>,
    platform: &mut P,
    command: &Command,
    file: &Text,
    out: &mut W,
) -> (Exit, HostHandles<M, O>)
    ensures { ExecutesInFile (program M.HostFiles O.Os P.ResultsHost P.Results.StoreSpec)
        command.now
        (command_state (state platform.old outside) tt (W.contents out.old))
        (command_state (state platform.new result.1) tt (W.contents out.new)) result.0.status
        (Some file.now) }
{
    let mut results = match platform.open(file, command_access(command)) {
        Ok(results) => results,
        Err(fault) => return (print_store_fault(fault, out), outside),
    };
    let (exit, outside) = execute_over_store(outside, platform, command, &mut results, out);
    // The results are closed even after a failed command.
    let closed = platform.close(results);
    (print_close_fault(exit, closed, out), outside)
}

/// Prints the message of `fault`, the fault of rejected arguments, to `errors`, and returns the
/// exit status.
///
/// `errors` is standard error. An out-of-memory message is printed to `out`, standard output, like
/// the messages of commands.
fn reject_arguments<W: Write, E: Write>(
    fault: &CommandFault,
    out: &mut LineOutput<W>,
    errors: &mut E,
) -> Exit
    ensures { RejectsArguments fault.now
        (record { out = line_state W.contents out.old; errors = E.contents errors.old })
        (record { out = line_state W.contents out.new; errors = E.contents errors.new })
        result.status }
{
    match fault {
        CommandFault::NoMemory(_) => {
            let exit = print_command_fault(fault, out);
            out.finish(exit)
        }
        _ => print_command_fault(fault, errors),
    }
}

/// Executes a parsed command, or prints the fault of its arguments, and returns the exit status.
///
/// The command uses the files, the clock and the system of `outside`, and the results file that
/// `platform` opens and closes. `list` and `debug` use no results file: they get a store without
/// runs, which they never call. After a command the output is flushed, and the exit status is 2 if
/// the flush fails. `outside` has the handles of the host, and is returned in its state after the
/// command.
pub fn run_command<M: HostFiles + Drop, O: Os + Drop, P: ResultsHost, W: Write, E: Write>(
    outside: HostHandles<M, O>,
    platform: &mut P,
    command: Result<Command, CommandFault>,
    out: &mut LineOutput<W>,
    errors: &mut E,
) -> (Exit, HostHandles<M, O>)
    ensures { RunsArguments (program M.HostFiles O.Os P.ResultsHost P.Results.StoreSpec) command
        (state platform.old outside) (state platform.new result.1)
        (record { out = line_state W.contents out.old; errors = E.contents errors.old })
        (record { out = line_state W.contents out.new; errors = E.contents errors.new })
        result.0.status }
{
    let command = match command {
        Ok(command) => command,
        Err(fault) => return (reject_arguments(&fault, out, errors), outside),
    };
    let (exit, outside) = match command.results_file() {
        Some(file) => execute_in_file(outside, platform, &command, file, out),
        None => execute_over_store(outside, platform, &command, &mut NoStore, out),
    };
    (out.finish(exit), outside)
}
