ghost use Rattle.std.specs.Prelude.{◌≡◌, [], ◌++◌, ℕ, List, Some, None, map, false, IfOk, OnOk, if◌then◌else◌};
ghost use Rattle.kt_os.specs.Common.{SameDir, SameEnv, SameOtherVars, SameProgramAndArgs, clears_env, command_args, command_program, command_var, utf8, IsCommandOf, setting_after_removals, setting_after_sets};

use crate::host::into_os_result;
use crate::{EnvPlan, OsFault};
use kt_base::{Items, NoMemory, Text, Variable, Variables};
use std::alloc::Global;
use std::fs::File;
use std::process::{Command, Processes, Stdio};
use std::{io, process};

/// A set of the values with which a program is started.
#[derive(Clone, Copy)]
pub(crate) struct ProgramStart<'a> {
    /// The absolute path of the program.
    pub program: &'a Text,
    /// The arguments of the program, without its name.
    pub args: &'a Items<Text>,
    /// The changes that turn the runner's environment into that of the program.
    pub env: &'a EnvPlan,
    /// The path of the working directory of the program.
    pub working_dir: &'a Text,
}

/// Appends `words` to the arguments of a command.
fn push_args(command: &mut Command, words: &Items<Text>) -> Result<(), NoMemory>
    ensures args { OnOk result (command_args command.new ≡ command_args command.old
        ++ map utf8 words.now) }
    ensures program { OnOk result (command_program command.new ≡ command_program command.old) }
    ensures env { OnOk result (SameEnv command.old command.new) }
    ensures dir { OnOk result (SameDir command.old command.new) }
{
    for word in words.as_slice() {
        command.arg(word.as_str())?;
    }
    Ok(())
}

/// Removes the variable `name` from the environment that a command inherits from the runner.
fn remove_variable(command: &mut Command, name: &Text) -> Result<(), NoMemory>
    ensures removed { OnOk result (command_var command.new (utf8 name.now)
        ≡ (if clears_env command.old then None else Some None)) }
    ensures others { OnOk result (SameOtherVars command.old command.new (utf8 name.now)) }
    ensures inherits { OnOk result (clears_env command.new ≡ clears_env command.old) }
    ensures call { OnOk result (SameProgramAndArgs command.old command.new) }
    ensures dir { OnOk result (SameDir command.old command.new) }
{
    command.env_remove(name.as_str())?;
    Ok(())
}

/// Removes the variables `names` from the environment that a command inherits from the runner.
fn remove_variables(command: &mut Command, names: &Items<Text>) -> Result<(), NoMemory>
    requires { clears_env command.old ≡ false }
    ensures variables { OnOk result ((name : List ℕ) → command_var command.new name
        ≡ setting_after_removals names.now name (command_var command.old name)) }
    ensures inherits { OnOk result (clears_env command.new ≡ false) }
    ensures call { OnOk result (SameProgramAndArgs command.old command.new) }
    ensures dir { OnOk result (SameDir command.old command.new) }
{
    for name in names.as_slice() {
        remove_variable(command, name)?;
    }
    Ok(())
}

/// Sets the variable `variable` in the environment of a command.
fn set_variable(command: &mut Command, variable: &Variable) -> Result<(), NoMemory>
    ensures set { OnOk result (command_var command.new (utf8 variable.now.name)
        ≡ Some (Some (utf8 variable.now.value))) }
    ensures others { OnOk result (SameOtherVars command.old command.new (utf8 variable.now.name)) }
    ensures inherits { OnOk result (clears_env command.new ≡ clears_env command.old) }
    ensures call { OnOk result (SameProgramAndArgs command.old command.new) }
    ensures dir { OnOk result (SameDir command.old command.new) }
{
    command.env(variable.name.as_str(), variable.value.as_str())?;
    Ok(())
}

/// Sets the variables `set` in the environment of a command. If a name occurs twice, its last value
/// counts.
fn set_variables(command: &mut Command, set: &Variables) -> Result<(), NoMemory>
    ensures variables { OnOk result ((name : List ℕ)
        → command_var command.new name ≡ setting_after_sets set.now name (command_var command.old
        name)) }
    ensures inherits { OnOk result (clears_env command.new ≡ clears_env command.old) }
    ensures call { OnOk result (SameProgramAndArgs command.old command.new) }
    ensures dir { OnOk result (SameDir command.old command.new) }
{
    for variable in set.as_slice() {
        set_variable(command, variable)?;
    }
    Ok(())
}

/// Creates a command for the program `program`, with an empty standard input. Its standard output
/// and standard error go to `out` and `err`.
fn create_command(alloc: Global, program: &Text, out: File, err: File) -> Result<Command, NoMemory>
    ensures program { IfOk result (λ command. command_program command ≡ utf8 program.now) }
    ensures args { IfOk result (λ command. command_args command ≡ []) }
    ensures inherits { IfOk result (λ command. clears_env command ≡ false) }
    ensures variables { IfOk result (λ command. (name : List ℕ)
        → command_var command name ≡ None) }
{
    let mut command = Command::new(alloc, program.as_str())?;
    command.stdin(Stdio::null());
    command.stdout(out);
    command.stderr(err);
    Ok(command)
}

/// Sets the arguments, the environment and the working directory of a new command to those of
/// `asked`.
fn set_up_command(command: &mut Command, asked: ProgramStart<'_>) -> Result<(), NoMemory>
    requires program { command_program command.old ≡ utf8 asked.program.now }
    requires args { command_args command.old ≡ [] }
    requires inherits { clears_env command.old ≡ false }
    requires variables { (name : List ℕ) → command_var command.old name ≡ None }
    ensures { OnOk result (IsCommandOf asked.entry.program.now asked.entry.args.now
        asked.entry.env.now asked.entry.working_dir.now command.new) }
{
    push_args(command, asked.args)?;
    remove_variables(command, &asked.env.removed)?;
    set_variables(command, &asked.env.set)?;
    command.current_dir(asked.working_dir.as_str())?;
    Ok(())
}

/// Spawns a command. The contract requires that the command matches the request `_asked`. The
/// standard streams are not part of the request.
///
/// Separate for the prover: std's `spawn` has no contract that a clause could cite.
fn spawn_command<R: Processes>(
    rt: &R,
    _asked: ProgramStart<'_>,
    command: &mut Command,
) -> io::Result<process::Child<R::Started>>
    requires { IsCommandOf _asked.program.now _asked.args.now _asked.env.now _asked.working_dir.now
        command.old }
{
    command.spawn(rt)
}

/// Sets the arguments, the environment and the working directory of a new command to those of
/// `asked`, and spawns the command.
///
/// Separate for the prover: the caller owns the command, since a function that drops values when it
/// fails is slow to prove.
fn set_up_and_spawn<R: Processes>(
    rt: &R,
    asked: ProgramStart<'_>,
    command: &mut Command,
) -> Result<process::Child<R::Started>, OsFault>
    requires program { command_program command.old ≡ utf8 asked.program.now }
    requires args { command_args command.old ≡ [] }
    requires inherits { clears_env command.old ≡ false }
    requires variables { (name : List ℕ) → command_var command.old name ≡ None }
{
    set_up_command(command, asked)?;
    into_os_result(spawn_command(rt, asked, command))
}

/// Starts a program with an empty standard input. Its standard output and standard error go to
/// `out` and `err`.
///
/// `asked` has the program, its arguments, its environment and its working directory. Fails if the
/// system can't start the program, or if an allocation fails.
pub(crate) fn spawn<R: Processes + AllocGlobal>(
    rt: &R,
    asked: ProgramStart<'_>,
    out: File,
    err: File,
) -> Result<process::Child<R::Started>, OsFault> {
    let mut command = create_command(rt.alloc(), asked.program, out, err)?;
    let started = set_up_and_spawn(rt, asked, &mut command);
    drop(command);
    started
}
