//! Executes command lines over a scripted results host and scripted files. Each command line has a
//! new scripted system.

use crate::printing::push_written_text;
use crate::scripted_files::ScriptedFiles;
use crate::scripted_results_host::ScriptedResultsHost;
use crate::words::parse_command_line;
use kt_args::{Command, CommandFault};
use kt_cli::{HostHandles, LineOutput, run_command};
use kt_doubles::{Scene, ScriptedSystem, provoke_no_memory};
use kt_examples::{ExampleLine, ExampleOutput, Result, ScriptedWriter, require_part};
use kt_store::ResultStore;
use std::alloc::Global;
use std::io::Write;

/// The state after the execution of command lines: the results host, both outputs, the exit
/// statuses and the calls on systems.
pub struct CommandsRun<R: ResultStore + Drop> {
    /// The results host, which has the results store.
    pub host: ScriptedResultsHost<R>,
    /// The standard output of the command lines.
    pub stdout: ScriptedWriter,
    /// The standard error of the command lines.
    pub stderr: ScriptedWriter,
    /// The exit statuses of the command lines, in order.
    pub exit_statuses: Vec<u8>,
    /// The calls of the command lines on their systems, one per line.
    pub log: ExampleOutput,
}

impl<R: ResultStore + Drop> Drop for CommandsRun<R> {
    fn drop(self) {
        let CommandsRun {
            host: _,
            stdout: _,
            stderr: _,
            exit_statuses: _,
            log: _,
        } = self;
    }
}

/// Executes a command over a new system, and returns its exit status and the host files. The calls
/// on the system are appended to `log`.
fn execute_command<'a, R: ResultStore + Drop, W: Write, E: Write>(
    log: &mut ExampleOutput,
    scene: &'a Scene,
    machine: ScriptedFiles<'a>,
    host: &mut ScriptedResultsHost<R>,
    command: Result<Command, CommandFault>,
    out: &mut W,
    errors: &mut E,
) -> Result<(u8, ScriptedFiles<'a>)> {
    let alloc = log.alloc;
    let os = ScriptedSystem::new(scene);
    let outside = HostHandles { alloc, machine, os };
    let mut lines = LineOutput::new(out, true);
    let (exit, outside) = run_command(outside, host, command, &mut lines, errors);
    log.push(outside.os.log.as_str()?);
    Ok((exit.status, outside.machine))
}

/// Appends `error: ` and the text on standard error, or only `error: usage` for a usage message.
fn push_errors(out: &mut ExampleOutput, errors: &ScriptedWriter) -> Result<()> {
    let mut page = ExampleOutput::new(out.alloc);
    push_written_text(&mut page, errors)?;
    let text = page.as_str()?;
    if text.contains("Usage:") {
        out.push("error: usage\n");
    } else if !text.is_empty() {
        write!(out, "error: {text}");
    }
    Ok(())
}

impl<R: ResultStore + Drop> CommandsRun<R> {
    /// Creates the state before the first command line, over the results host `host`.
    pub fn new(alloc: Global, host: ScriptedResultsHost<R>) -> CommandsRun<R> {
        CommandsRun {
            host,
            stdout: ScriptedWriter::new(alloc),
            stderr: ScriptedWriter::new(alloc),
            exit_statuses: Vec::new(alloc),
            log: ExampleOutput::new(alloc),
        }
    }

    /// Executes the command lines among `lines`. The lines `do WORDS` and `line WORDS` have the
    /// arguments. For the line `words no-memory`, the allocation of the arguments fails.
    ///
    /// # Errors
    ///
    /// - `InvalidExample`: an argument has an invalid escape or isn't UTF-8, or no failed
    ///   allocation can be provoked for `words no-memory`.
    /// - `NoMemory`: an allocation outside the command failed.
    pub fn execute_lines(&mut self, lines: &[ExampleLine<'_>], scene: &Scene) -> Result<()> {
        let alloc = self.log.alloc;
        let mut machine = ScriptedFiles {
            scene,
            moment_count: 0,
        };
        for line in lines {
            let command = match line.keyword {
                "do" | "line" => parse_command_line(alloc, line.text)?,
                "words" => Err(CommandFault::from(provoke_no_memory(alloc)?)),
                _ => continue,
            };
            let (log, host) = (&mut self.log, &mut self.host);
            let (out, errors) = (&mut self.stdout, &mut self.stderr);
            let (status, left) = execute_command(log, scene, machine, host, command, out, errors)?;
            machine = left;
            self.exit_statuses.push(status)?;
        }
        Ok(())
    }

    /// Appends the texts on standard output and standard error, and the exit statuses of the
    /// command lines.
    ///
    /// # Errors
    ///
    /// - `NoMemory`: an allocation failed.
    pub fn push_result(&self, out: &mut ExampleOutput) -> Result<()> {
        push_written_text(out, &self.stdout)?;
        push_errors(out, &self.stderr)?;
        out.push("exit");
        for status in self.exit_statuses.as_slice() {
            write!(out, " {status}");
        }
        Ok(())
    }

    /// Returns the results store that was closed last.
    ///
    /// # Errors
    ///
    /// - `InvalidExample`: the store isn't closed.
    pub fn into_results(mut self) -> Result<R> {
        require_part(self.host.results.take(), "there is no store")
    }
}
