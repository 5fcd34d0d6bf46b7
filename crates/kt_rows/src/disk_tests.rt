//! The command `test` on a disk that fails at a call, and the runs that a crash then leaves.

use crate::commands_run::CommandsRun;
use crate::disks::{
    DatabaseOperation, add_fuse, crash_and_read, create_empty_files, create_schema_1_files,
    is_partial_run, run_on_files,
};
use crate::scripted_results_host::ScriptedResultsHost;
use kt_dbfile::RunsFile;
use kt_doubles::{Scene, parse_scene};
use kt_examples::{Example, ExampleFault, ExampleOutput, Result, require_part};
use kt_store::{ResultStore, Results, StoreFault};
use sqlite::{Alter, Connection};
use sqlite_disk::{Files, Fuse, Memory};

/// The maximum number of executions of an example's command lines with a disk that fails.
const MAX_TRIALS: u64 = 400;

/// The last line of a command's output if its store failed.
const STORE_FAILED_LINE: &str = "kyua: E: results store failed\n";

/// The last line of a command's output if an allocation failed.
const NO_MEMORY_LINE: &str = "kyua: E: out of memory\n";

/// The output if the runs after a crash are neither those before nor those after the failed store
/// call.
const OTHER_RUNS_TEXT: &str =
    ", and then the runs are neither from before the call nor from after it";

/// The result of an execution of the command `test`.
#[derive(Drop)]
struct TestResult {
    /// The text that `test` wrote to standard output.
    stdout: String,
    /// The exit status of `test`.
    status: u8,
    /// `true` if `test` started a child.
    has_spawned: bool,
}

/// An execution of `test` on a disk that fails, and the content of the files after a crash.
#[derive(Drop)]
struct CrashRun {
    /// The result of `test`, or `None` if the results tables couldn't be attached.
    test_result: Option<TestResult>,
    /// The schema number in the database after the crash, or 0 if there is none.
    schema: i64,
    /// The texts of the runs after the crash: for each run its head, its entries and its state.
    remaining_runs: Vec<String>,
}

/// An execution of `test` on a disk that doesn't fail. Its store calls are numbered: 0 attaches the
/// tables, 1 is `begin`, from 2 on each `put` adds an entry, and the last is `finish`.
#[derive(Drop)]
struct BaselineRun {
    /// The result of `test`.
    test_result: TestResult,
    /// The texts of the runs before the execution: for each run its head, its entries and its
    /// state.
    initial_runs: Vec<String>,
    /// The texts of the runs after the execution and a crash: for each run its head, its entries
    /// and its state.
    remaining_runs: Vec<String>,
}

impl BaselineRun {
    /// Returns the number of the store call `finish`, the last call of the execution.
    fn finish_call_number(&self) -> usize {
        self.remaining_runs
            .len()
            .saturating_sub(self.initial_runs.len())
    }

    /// Returns the number of the last completed store call of a command that left the runs
    /// `remaining_runs`. Returns `None` if these runs are not those after one of the calls.
    fn find_completed_call(&self, remaining_runs: &[String]) -> Option<usize> {
        let (before, whole) = (self.initial_runs.as_slice(), self.remaining_runs.as_slice());
        if remaining_runs == before {
            return Some(0);
        }
        if remaining_runs == whole {
            return Some(self.finish_call_number());
        }
        (1..self.finish_call_number()).find(|done| is_partial_run(
            remaining_runs,
            whole,
            before.len(),
            *done,
        ))
    }

    /// Returns the number of the store call that stopped the command with the result `cut`.
    ///
    /// The number follows from the output and from whether a child was started. The number after
    /// that of `finish` means that no call stopped the command. The error describes an output that
    /// fits no call, or a failed allocation.
    fn find_stopping_call(&self, cut: &TestResult) -> Result<usize, &'static str> {
        let (page, whole) = (cut.stdout.as_str(), self.test_result.stdout.as_str());
        let memory = page.strip_suffix(NO_MEMORY_LINE);
        let front = match memory.or(page.strip_suffix(STORE_FAILED_LINE)) {
            _ if page == whole && cut.status == self.test_result.status => {
                return Ok(self.finish_call_number().saturating_add(1));
            }
            Some(front) if cut.status == 2 => front,
            Some(_) => return Err("and then the exit is another one"),
            None => return Err("and then the line is missing"),
        };
        if !whole.starts_with(front) {
            Err("and then the page is no beginning")
        } else if memory.is_some() {
            Err("out of memory")
        } else if !cut.has_spawned {
            Ok(1)
        } else {
            Ok(
                front
                    .lines()
                    .count()
                    .saturating_add(2)
                    .min(self.finish_call_number()),
            )
        }
    }

    /// Appends the store call that stopped the execution `cut`, as ` attach 1`, ` begin`, ` put 1`
    /// or ` finish`.
    ///
    /// The number after `attach` is the schema number after the crash. The runs after the crash
    /// must be those before or after the call. If the runs or the output are wrong, if an
    /// allocation failed, or if no call stopped the execution, appends a text that begins with a
    /// comma.
    fn push_stopping_call(&self, out: &mut ExampleOutput, cut: &CrashRun) {
        let stop = match &cut.test_result {
            None => Ok(0),
            Some(test_result) => self.find_stopping_call(test_result),
        };
        match (
            stop,
            self.find_completed_call(cut.remaining_runs.as_slice()),
        ) {
            (Err(what), Some(_)) => write!(out, ", {what}"),
            (Ok(stop), Some(done)) if stop == done || stop == done.saturating_add(1) => match stop {
                0 => write!(out, " attach {}", cut.schema),
                1 => out.push(" begin"),
                _ if stop < self.finish_call_number() => write!(
                    out,
                    " put {}",
                    stop.saturating_sub(1)
                ),
                _ if stop == self.finish_call_number() => out.push(" finish"),
                _ => out.push(", then not"),
            },
            _ => out.push(OTHER_RUNS_TEXT),
        }
    }
}

/// Appends `title`, the output of a command, and the runs that a crash left, each on a new line.
fn push_test_result(
    out: &mut ExampleOutput,
    title: &str,
    test_result: Option<&TestResult>,
    remaining_runs: &[String],
) {
    out.push_line(title);
    if let Some(test_result) = test_result {
        out.push_line(test_result.stdout.as_str());
    }
    for line in remaining_runs {
        out.push_line(line.as_str());
    }
}

/// A trial of an example's command lines on disks whose log or database file fails.
#[derive(Clone, Copy)]
struct DiskTrial<'a> {
    /// The example whose command lines are executed.
    example: &'a Example<'a>,
    /// The script of the host files and the systems.
    scene: &'a Scene,
    /// `true` if the log fails, `false` if the database file fails.
    log_fails: bool,
    /// `true` if the store has schema 1 at first, `false` if the files are empty.
    is_schema_1: bool,
    /// The number of frames at which the log is copied into the database file.
    frames: usize,
}

impl DiskTrial<'_> {
    /// Executes the command lines over the store `results`. Returns the result of the last command
    /// line, and the store.
    fn execute_test<R: ResultStore + Drop>(self, results: R) -> Result<(TestResult, R)> {
        let mut commands_run = CommandsRun::new(
            self.scene.alloc,
            ScriptedResultsHost::new(self.scene.alloc, results),
        );
        commands_run.execute_lines(self.example.lines.as_slice(), self.scene)?;
        let status = *require_part(commands_run.exit_statuses.last(), "there is no command")?;
        let test_result = TestResult {
            stdout: commands_run.stdout.written_text(self.scene.alloc)?,
            status,
            has_spawned: commands_run.log.as_str()?.contains("spawn "),
        };
        Ok((test_result, commands_run.into_results()?))
    }

    /// Executes the command lines on the database in `files`, and simulates a crash. Returns the
    /// result of the last command line, with the schema number and the runs after the crash.
    /// Returns `None` if the files can't be opened for the command lines.
    fn execute_and_crash(self, files: Files<Fuse<Memory>>) -> Result<Option<CrashRun>> {
        let (alloc, frames) = (self.scene.alloc, self.frames);
        let Some((test_result, files)) = run_on_files(alloc, files, frames, self)? else {
            return Ok(None);
        };
        let (schema, remaining_runs) = crash_and_read(alloc, files, frames)?;
        Ok(Some(CrashRun {
            test_result,
            schema,
            remaining_runs,
        }))
    }

    /// Creates the database files for the command lines. Their log or their database file fails
    /// after `calls` calls.
    fn create_files(self, calls: u64) -> Result<Files<Fuse<Memory>>> {
        let files = match self.is_schema_1 {
            true => create_schema_1_files(self.scene.alloc, self.frames)?,
            false => create_empty_files(self.scene.alloc),
        };
        Ok(add_fuse(files, self.log_fails, calls))
    }

    /// Executes the command lines on a disk that doesn't fail. Returns the result of the last
    /// command line, and the runs before and after the execution.
    fn run_baseline(self) -> Result<BaselineRun> {
        let (_, initial_runs) = crash_and_read(
            self.scene.alloc,
            self.create_files(u64::MAX)?,
            self.frames,
        )?;
        let whole = require_part(
            self.execute_and_crash(self.create_files(u64::MAX)?)?,
            "there is no store",
        )?;
        Ok(BaselineRun {
            test_result: require_part(whole.test_result, "its tables are not attached")?,
            initial_runs,
            remaining_runs: whole.remaining_runs,
        })
    }

    /// Executes the command lines with each call of the disk failing in turn, and appends the store
    /// calls that stopped them.
    ///
    /// Consecutive executions that stop in the same call are appended once. The trial ends after an
    /// execution that no call stopped, in which an allocation failed, or whose output or runs are
    /// wrong. If the output or the runs of an execution are wrong, appends its result and runs, and
    /// those of the execution without a failure.
    fn push_stopping_calls(self, out: &mut ExampleOutput, whole: &BaselineRun) -> Result<()> {
        out.push("stopped in");
        let mut last = String::new(self.scene.alloc);
        for calls in 0..MAX_TRIALS {
            let Some(cut) = self.execute_and_crash(self.create_files(calls)?)? else {
                continue;
            };
            let mut stop = ExampleOutput::new(self.scene.alloc);
            whole.push_stopping_call(&mut stop, &cut);
            let stop = stop.into_string()?;
            if stop.as_str() != last.as_str() {
                out.push(stop.as_str());
            }
            if stop.as_str().starts_with(", and then") {
                push_test_result(
                    out,
                    "whole",
                    Some(&whole.test_result),
                    whole.remaining_runs.as_slice(),
                );
                push_test_result(
                    out,
                    "cut",
                    cut.test_result.as_ref(),
                    cut.remaining_runs.as_slice(),
                );
            }
            if stop.as_str().starts_with(',') {
                break;
            }
            last = stop;
        }
        Ok(())
    }

    /// Appends the output, the exit status and the remaining runs of an execution on a disk that
    /// doesn't fail, if `is_sound` is set. Otherwise appends the store calls at which a failing
    /// disk stops the command.
    fn push_outcome(self, out: &mut ExampleOutput, is_sound: bool) -> Result<()> {
        let whole = self.run_baseline()?;
        if !is_sound {
            return self.push_stopping_calls(out, &whole);
        }
        let (page, status) = (whole.test_result.stdout.as_str(), whole.test_result.status);
        write!(out, "{page}exit {status}");
        for line in whole.remaining_runs.as_slice() {
            out.push_line(line.as_str());
        }
        Ok(())
    }
}

/// Executes the command lines over a database. The result is `None` if the results tables can't be
/// attached.
impl DatabaseOperation for DiskTrial<'_> {
    type WorkResult = Option<TestResult>;

    fn execute_on_database<S: Alter + Drop>(
        self,
        conn: Connection<S>,
    ) -> Result<(Option<TestResult>, S)> {
        if !conn.is_autocommit() {
            return Err(ExampleFault::InvalidExample("a transaction is open"));
        }
        match Results::attach(self.scene.alloc, conn) {
            Ok(results) => match RunsFile::from_results(results) {
                Ok(file) => {
                    let (test_result, file) = self.execute_test(file)?;
                    Ok((Some(test_result), file.into_store()))
                }
                Err(StoreFault::NoMemory(_)) => Err(ExampleFault::InvalidExample("out of memory")),
                Err(_) => Err(ExampleFault::InvalidExample("its trees can't be read")),
            },
            Err((StoreFault::Store(_), conn)) => Ok((None, conn.into_store())),
            Err((StoreFault::NoMemory(_), _conn)) => Err(ExampleFault::InvalidExample(
                "out of memory",
            )),
            Err(_) => Err(ExampleFault::InvalidExample("it was refused for another reason")),
        }
    }
}

/// Executes command lines, the last of them `test`, on a disk that fails at each of its calls in
/// turn. Appends the store calls at which the disk stopped `test`. For a `sound` disk, appends the
/// output, the exit status and the runs that a crash leaves.
///
/// # Errors
///
/// - `InvalidExample`: a line is missing or invalid, or the store can't be created or read.
/// - `NoMemory`: an allocation outside the command failed.
pub fn push_output(out: &mut ExampleOutput, example: &Example<'_>, disk: &str) -> Result<()> {
    let scene = parse_scene(out.alloc, example)?;
    let trial = DiskTrial {
        example,
        scene: &scene,
        log_fails: disk == "log",
        is_schema_1: example.find_text("old").is_some(),
        frames: example.find_number("frames", 1000)? as usize,
    };
    trial.push_outcome(out, disk == "sound")
}
