ghost use Rattle.std.specs.Prelude.{Result, drop, map};
ghost use Rattle.kt_args.specs.Common.{into_iter_items, string_bytes};
ghost use Rattle.kt_args.specs.declared.command_fault.CommandFault.{CommandFault as Fault};
ghost use Rattle.kt_cli.specs.Common.{RunsArguments, Command, IsCommandOfArgs, line_state, program, state};

use crate::host::performing::run_command;
use crate::{HostHandles, LineOutput, ResultsHost};
use kt_args::read_process_args;
use kt_os::{HostFiles, Os};
use std::env::Args;
use std::io;
use std::io::Write;

/// Executes the command in the arguments of the process, and returns the exit status.
///
/// `words` are the arguments, of which the first is the program's own name. `out` is standard
/// output: `test` writes it line by line, and other commands write it in blocks of 64 KiB. Wrong
/// arguments are reported on `errors`, the standard error. `platform` opens and closes the results
/// file. `outside` has the handles of the host, and is returned in its state after the command.
pub fn run_process_args<M: HostFiles + Drop, O: Os + Drop, P: ResultsHost, W: Write, E: Write>(
    outside: HostHandles<M, O>,
    platform: &mut P,
    words: io::Result<Args>,
    out: &mut LineOutput<W>,
    errors: &mut E,
) -> (u8, HostHandles<M, O>)
    ensures { (command : Result Command Fault)
        × IsCommandOfArgs (λ all. map (λ word. string_bytes word) (drop 1 (into_iter_items all)))
        words command
        × RunsArguments (program M.HostFiles O.Os P.ResultsHost P.Results.StoreSpec) command
        (state platform.old outside) (state platform.new result.1)
        (record { out = line_state W.contents out.old; errors = E.contents errors.old })
        (record { out = line_state W.contents out.new; errors = E.contents errors.new })
        result.0 }
{
    let command = read_process_args(outside.alloc, words);
    let by_line = match &command {
        Ok(command) => command.adds_run(),
        Err(_) => false,
    };
    out.set_line_buffered(by_line);
    let (exit, outside) = run_command(outside, platform, command, out, errors);
    (exit.status, outside)
}
