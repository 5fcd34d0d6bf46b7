//! Command lines over a scripted results host, scripted files and a scripted system.

use crate::commands_run::CommandsRun;
use crate::disk_tests;
use crate::failing_store::FailingStore;
use crate::printing::push_pieces;
use crate::scripted_results_host::ScriptedResultsHost;
use kt_cli::absolute_directory;
use kt_doubles::{
    Scene, SplitReadStore, parse_scene, provoke_no_memory, provoke_store_error, push_call,
    push_calls, push_runs,
};
use kt_examples::{
    Example, ExampleFault, ExampleLine, ExampleOutput, Result, find_entry_lines, parse_number,
    split_once_or_fail, unescape_lossy,
};
use kt_os::OsFault;
use kt_store::StoreFault;
use kt_suite::Kyuafile;
use std::alloc::Global;

/// The maximum number of writes that the line `writes each` of an example makes fail in turn, plus
/// 1.
const MAX_TRIALS: u64 = 10_000;

/// Parses `fault` as the error of a results store: `no-memory`, `failed` or `unknown-schema`.
fn parse_store_fault(alloc: Global, fault: &str) -> Result<StoreFault> {
    match fault {
        "no-memory" => Ok(StoreFault::from(provoke_no_memory(alloc)?)),
        "failed" => Ok(StoreFault::Store(provoke_store_error(alloc)?)),
        "unknown-schema" => Ok(StoreFault::UnknownSchema),
        _ => Err(ExampleFault::InvalidExample("there is no such fault of a store")),
    }
}

/// Parses `fault` as the error of reading the process environment: `no-memory` or
/// `no-work-directory`.
fn parse_env_fault(alloc: Global, fault: &str) -> Result<OsFault> {
    match fault {
        "no-memory" => Ok(OsFault::Memory(provoke_no_memory(alloc)?)),
        "no-work-directory" => Ok(OsFault::Failed),
        _ => Err(ExampleFault::InvalidExample("there is no such fault of the environment")),
    }
}

/// Creates the results store of an example in memory, and executes the lines `begin`, `put` and
/// `finish` of the example on the store.
fn create_results(alloc: Global, example: &Example<'_>) -> Result<FailingStore> {
    let mut results = FailingStore::new(alloc, example)?;
    let mut unread = ExampleOutput::new(alloc);
    let lines = example.lines.as_slice();
    for (place, line) in lines.iter().enumerate() {
        if matches!(line.keyword, "begin" | "put" | "finish") {
            let mut calls = SplitReadStore {
                store: &mut results,
                alloc,
            };
            push_call(
                &mut unread,
                &mut calls,
                line,
                find_entry_lines(lines, place),
            )?;
        }
    }
    unread.as_str()?;
    Ok(results)
}

/// Sets an error or an environment variable of the results host `host` as the line `line` requires.
/// Other lines are ignored.
fn set_host_option(
    host: &mut ScriptedResultsHost<FailingStore>,
    line: &ExampleLine<'_>,
) -> Result<()> {
    let alloc = host.calls.alloc;
    match line.keyword {
        "open" => host.open_error = Some(parse_store_fault(alloc, line.text)?),
        "close" => host.close_error = Some(parse_store_fault(alloc, line.text)?),
        "surroundings" => host.env_error = Some(parse_env_fault(alloc, line.text)?),
        "path" => host.path = Some(unescape_lossy(alloc, line.text)?),
        "user" => host.user = Some(unescape_lossy(alloc, line.text)?),
        _ => {}
    }
    Ok(())
}

/// Creates the scripted results host of an example, with its results store, its errors and its
/// environment variables.
fn create_host(alloc: Global, example: &Example<'_>) -> Result<ScriptedResultsHost<FailingStore>> {
    let mut host = ScriptedResultsHost::new(alloc, create_results(alloc, example)?);
    for line in example.lines.as_slice() {
        set_host_option(&mut host, line)?;
    }
    Ok(host)
}

/// Executes the command lines of an example, and returns the state after them. Writes to standard
/// output fail from write number `failing_write` on, or never if it is 0. The line `flush fails`
/// makes flushes of standard output fail. The line `error N` makes writes to standard error fail
/// from write number N on. The line `takes BYTES` limits the bytes of a write to standard output,
/// which are 4,096 by default.
fn run_example(
    example: &Example<'_>,
    scene: &Scene,
    failing_write: u64,
) -> Result<CommandsRun<FailingStore>> {
    let alloc = scene.alloc;
    let mut commands_run = CommandsRun::new(alloc, create_host(alloc, example)?);
    commands_run.stdout.at_most = example.find_number("takes", 4096)? as usize;
    commands_run.stdout.failing_write = failing_write;
    commands_run.stdout.flush_fails = example.find_text("flush").is_some();
    commands_run.stderr.failing_write = example.find_number("error", 0)?;
    commands_run.execute_lines(example.lines.as_slice(), scene)?;
    Ok(commands_run)
}

/// Appends the runs of the results store, or `open` if the store isn't closed.
fn push_store_state(out: &mut ExampleOutput, commands_run: &mut CommandsRun<FailingStore>) {
    match &mut commands_run.host.results {
        Some(store) => {
            let alloc = out.alloc;
            push_runs(out, &mut SplitReadStore { store, alloc }, false);
        }
        None => out.push("open"),
    }
}

/// Appends the outputs and the exit statuses of command lines to `out`, and then the parts of the
/// state that the line `show WORDS` selects. `runs` are the runs of the store, and `system` are the
/// calls on the system.
fn push_result_and_state(
    out: &mut ExampleOutput,
    example: &Example<'_>,
    commands_run: &mut CommandsRun<FailingStore>,
) -> Result<()> {
    commands_run.push_result(out)?;
    for word in example.find_text("show").unwrap_or("").split_whitespace() {
        out.push_separator("\n");
        match word {
            "system" => push_calls(out, "calls", commands_run.log.as_str()?)?,
            _ => push_store_state(out, commands_run),
        }
    }
    Ok(())
}

/// Checks the output, the exit status and the runs after a failed write of a command. Returns a
/// message if one of them is wrong, else `None`.
///
/// In `cut`, the state after the failed write, the output must be a proper prefix of that of
/// `whole`. The last exit status must be 2, and the runs must be those of `whole`.
fn find_violation(
    alloc: Global,
    whole: &mut CommandsRun<FailingStore>,
    cut: &mut CommandsRun<FailingStore>,
) -> Result<Option<&'static str>> {
    let (whole_page, cut_page) = (whole.stdout.written_bytes()?, cut.stdout.written_bytes()?);
    if cut_page.len() >= whole_page.len() || !whole_page.starts_with(cut_page) {
        return Ok(Some("the page is no beginning"));
    }
    if cut.exit_statuses.last().copied() != Some(2) {
        return Ok(Some("the exit is another one"));
    }
    let (mut expected, mut found) = (ExampleOutput::new(alloc), ExampleOutput::new(alloc));
    push_store_state(&mut expected, whole);
    push_store_state(&mut found, cut);
    if expected.as_str()? != found.as_str()? {
        return Ok(Some("the runs are others"));
    }
    Ok(None)
}

/// Executes the command lines of `example` once without a failed write. Then executes them again
/// for each number N of a write, from 1 up: write N and all later writes fail.
///
/// Appends the output without a failed write. If `find_violation` returns a message for another
/// execution, appends the number of the write, this message and the output of that execution, and
/// stops.
fn push_each_failed_write(
    out: &mut ExampleOutput,
    example: &Example<'_>,
    scene: &Scene,
) -> Result<()> {
    let mut whole = run_example(example, scene, 0)?;
    push_result_and_state(out, example, &mut whole)?;
    for failing_write in 1..MAX_TRIALS {
        let mut cut = run_example(example, scene, failing_write)?;
        if cut.stdout.writes < failing_write {
            break;
        }
        if let Some(what) = find_violation(out.alloc, &mut whole, &mut cut)? {
            out.push_separator("\n");
            write!(out, "at write {failing_write}: {what}\n");
            return push_result_and_state(out, example, &mut cut);
        }
    }
    Ok(())
}

/// Executes the command lines of an example, and appends the outputs and exit statuses to `out`. If
/// `shows_calls` is set, first appends the calls on the results host. With the line `writes each`,
/// each write fails in turn, and the calls aren't appended.
fn execute_commands(
    out: &mut ExampleOutput,
    example: &Example<'_>,
    shows_calls: bool,
) -> Result<()> {
    let scene = parse_scene(out.alloc, example)?;
    let writes = example.find_text("writes").unwrap_or("0");
    if writes == "each" {
        return push_each_failed_write(out, example, &scene);
    }
    let mut commands_run = run_example(example, &scene, parse_number(writes)?)?;
    match commands_run.host.calls.as_str()? {
        _ if !shows_calls => {}
        "" => out.push("nothing\n"),
        calls => write!(out, "{calls}\n"),
    }
    push_result_and_state(out, example, &mut commands_run)
}

/// Parses `text` as `HERE KYUAFILE`, and appends the absolute path of the Kyuafile's directory.
/// HERE is the working directory.
fn push_kyuafile_directory(out: &mut ExampleOutput, text: &str) -> Result<()> {
    let (here, kyuafile) = split_once_or_fail(text, " ", "a directory and a Kyuafile are due")?;
    let kyuafile = Kyuafile::new(out.alloc, kyuafile)?;
    out.push_text(absolute_directory(out.alloc, here, kyuafile.directory()));
    Ok(())
}

/// Executes the command lines of an example, and appends the outputs and exit statuses. The lines
/// `disk KIND`, `piece TEXT` and `source HERE KYUAFILE` select an example of a failing disk, a line
/// buffer or a path instead.
///
/// # Errors
///
/// - `InvalidExample`: a line is missing or invalid.
/// - `NoMemory`: an allocation outside the command failed.
pub fn push_output(out: &mut ExampleOutput, example: &Example<'_>) -> Result<()> {
    if let Some(disk) = example.find_text("disk") {
        return disk_tests::push_output(out, example, disk);
    }
    let first = example.first_line()?;
    match first.keyword {
        "piece" => push_pieces(out, example),
        "source" => push_kyuafile_directory(out, first.text),
        _ => execute_commands(out, example, false),
    }
}

/// Executes the command lines of an example, and appends the calls on the results host, the outputs
/// and the exit statuses.
///
/// # Errors
///
/// - `InvalidExample`: a line is missing or invalid.
/// - `NoMemory`: an allocation outside the command failed.
pub fn push_output_with_calls(out: &mut ExampleOutput, example: &Example<'_>) -> Result<()> {
    execute_commands(out, example, true)
}
