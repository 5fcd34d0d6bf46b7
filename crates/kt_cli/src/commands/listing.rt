ghost use Rattle.std.specs.Prelude.{is_err};
ghost use Rattle.kt_cli.specs.Common.{Emits, IsIdle, list_output, ExecutesWithoutStore};
ghost use Rattle.kt_args.specs.declared.command.Command.TheVariants as command;

use crate::Exit;
use crate::messages::{print_selection_error, write_warnings};
use crate::output::exit::{exit_after_write, exit_status};
use kt_args::{CaseOptions, FilterRule};
use kt_base::{OutputFault, emit_all};
use kt_plan::{CaseSelection, World, select_cases};
use std::alloc::Global;
use std::io::Write;

/// Writes the line `PROGRAM:CASE` for each selected case, and then a warning for each filter that
/// selects no case.
fn write_listing<O: Write>(
    options: &CaseOptions,
    chosen: &CaseSelection,
    out: &mut O,
) -> Result<(), OutputFault>
    ensures { Emits (O.contents out.old) (O.contents out.new) (is_err result)
        (list_output options.now.filters chosen.now) }
{
    for case in chosen.cases.as_slice() {
        let name = case.case.name.as_bytes();
        emit_all(&[case.path.as_bytes(), b":", name, b"\n"], out)?;
    }
    write_warnings(options, chosen.unmatched.as_slice(), out)
}

/// Executes `list`: prints `PROGRAM:CASE` for each selected case, and returns the exit status.
///
/// The exit status is 0 if every filter selects a case, and 1 if a filter selects none. It is 3 if
/// the arguments are wrong, and 2 after any other fault.
pub fn list<W: World, O: Write>(
    alloc: Global,
    options: &CaseOptions,
    world: &mut W,
    out: &mut O,
) -> Exit
    requires { IsIdle (W.running world.old) (W.pending world.old) }
    ensures asked { ExecutesWithoutStore W.World (command.List options.now) world.old world.new
        (O.contents out.old) (O.contents out.new) result.status }
    ensures idle { IsIdle (W.running world.new) (W.pending world.new) }
{
    match select_cases(alloc, FilterRule::AnyFilters, options, world) {
        Ok(picked) => {
            let written = write_listing(options, &picked.chosen, out);
            exit_after_write(written, exit_status(0, picked.chosen.unmatched.as_slice()))
        }
        Err(fault) => print_selection_error(fault, out),
    }
}
