ghost use Rattle.std.specs.Prelude.{IfOk, OnErr, ◌≡◌, ℕ, List};
ghost use Rattle.kt_cli.specs.Common.{IsIdle, CommandResult, CommandState, command_state, ExecutesAllCommands, Run, Command, IsSoundExecution};

use crate::Exit;
use crate::commands::debugging::debug;
use crate::commands::listing::list;
use crate::commands::reporting::execute_report;
use crate::commands::testing::test;
use kt_args::Command;
use kt_base::NoMemory;
use kt_plan::World;
use kt_store::ResultStore;
use std::alloc::Global;
use std::io::Write;

/// Executes a command over a world and a results store, writes its output, and returns its exit
/// status.
///
/// `test` reads the configuration and the Kyuafiles before it begins a run. After a fault in one of
/// these files, the store has no new run. `test` puts an entry before it writes the entry's line.
/// After a failed write, `test` still records entries. After a failed put, `test` only starts
/// pending cleanups.
///
/// The contract derives the calls, the output and the exit status from the results that the world
/// and the store returned. It holds even if the store loses entries. `theorem_of_sound_stores`
/// states which runs a store has afterwards if it loses nothing.
pub fn execute<W: World, R: ResultStore, O: Write>(
    alloc: Global,
    command: &Command,
    world: &mut W,
    results: &mut R,
    out: &mut O,
) -> Exit
    requires { IsIdle (W.running world.old) (W.pending world.old) }
    ensures did { CommandResult W.World R.StoreSpec command.now
        (command_state world.old results.old (O.contents out.old))
        (command_state world.new results.new (O.contents out.new)) result.status }
    ensures idle { IsIdle (W.running world.new) (W.pending world.new) }
{
    match command {
        Command::List(options) => list(alloc, options, world, out),
        Command::Test {
            options,
            results: file,
        } => test(alloc, options, file, world, results, out),
        Command::Debug(options) => debug(alloc, options, world, out),
        Command::Report { .. } | Command::ReportJunit(_) => {
            execute_report(alloc, command, results, out)
        }
    }
}

/// Executes `commands` in order, also after a failed command, and returns their exit statuses.
///
/// The list of exit statuses is allocated before the first command, so that no exit status is lost.
///
/// # Errors
///
/// - `NoMemory`: the list can't be allocated. No command was executed.
pub fn execute_all<W: World, R: ResultStore, O: Write>(
    alloc: Global,
    commands: &[Command],
    world: &mut W,
    results: &mut R,
    out: &mut O,
) -> Result<Vec<Exit>, NoMemory>
    requires { IsIdle (W.running world.old) (W.pending world.old) }
    ensures did { IfOk result (λ exits. ExecutesAllCommands W.World R.StoreSpec commands.now
        (command_state world.old results.old (O.contents out.old))
        (command_state world.new results.new (O.contents out.new)) exits.items) }
    ensures idle { IsIdle (W.running world.new) (W.pending world.new) }
    ensures unasked { OnErr result ((world.new ≡ world.old) × (results.new ≡ results.old)
        × (O.contents out.new ≡ O.contents out.old)) }
{
    let mut exits = Vec::with_capacity(alloc, commands.len())?;
    for command in commands {
        let exit = execute(alloc, command, world, results, out);
        if exits.push(exit).is_err() {
            // The list was allocated for all commands.
            unreachable!()
        }
    }
    Ok(exits)
}

/// Theorem: if the store represents runs before `execute` and is sound after it, then `execute`
/// added at most one run to the store, and changed no other run.
///
/// A store is sound if it returns exactly what was written. The new run has exactly the entries
/// that were put, and is finished only if it has an entry for each of its cases. A call of the
/// store fails only if memory ran out, the database failed, or the store has the maximum number of
/// runs.
pub fn theorem_of_sound_stores<W: World, R: ResultStore>()
    ensures { (c : Command) (old new : CommandState W R) (exit : ℕ) (runs : List Run)
        (did : CommandResult W.World R.StoreSpec c old new exit) → R.stands old.store runs
        → R.sound new.store → IsSoundExecution did runs }
{}
