//! Examples of a scripted system, which executes a plan, lists a program's cases or reads a file.

ghost use Rattle.kt_sched.specs.Plan.{IsPlan, IsWidth};

use crate::endless_reader::EndlessReader;
use crate::folds::push_folded_lines;
use crate::memory_sink::MemorySink;
use crate::plans::create_plan;
use crate::scene_reading::{parse_call_range, parse_scene};
use crate::{Scene, ScriptedSystem};
use kt_atflist::{ListBytes, Listing};
use kt_base::{Entry, Interface, Items, Kind, Text, Variables};
use kt_child::{Driver, DriverFault, FileRead, Os, run_driver};
use kt_examples::{
    Example, ExampleFault, ExampleOutput, Result, parse_number, parse_number_up_to, parse_pairs,
    push_entries, push_verdict, unescape, zip_results,
};
use kt_metadata::Props;
use kt_os::{read_and_peek, read_up_to};
use kt_sched::{Job, MAX_TIMEOUT_SECONDS, MAX_WIDTH, RunFault, SinkFault};
use kt_suite::Program;
use std::alloc::Global;

/// The maximum number of bytes that are read of a Kyuafile or a configuration file: one more than
/// such a file may have.
const SCRIPT_READ_BYTES: usize = 1_048_577;

/// The result of executing a plan by a driver over a system.
#[derive(Drop)]
struct DriverRun<O: Drop> {
    /// The system after the execution of the plan.
    os: O,
    /// The recorded entries, in the order of their puts.
    entries: Vec<Entry>,
    /// The message of the error that ended the run early, if any.
    fault: Option<&'static str>,
}

/// Returns the part of the log line `line` that `form` selects, or `None` if `form` doesn't select
/// this line. `words` selects the first word, `watching` the line of a poll, a kill or a pause, and
/// any other value the whole line.
fn select_call<'a>(form: &str, line: &'a str) -> Option<&'a str> {
    let (keyword, _) = line.split_once(' ').unwrap_or((line, ""));
    match form {
        "words" => Some(keyword),
        "watching" if !matches!(keyword, "poll" | "kill" | "pause") => None,
        _ => Some(line),
    }
}

/// Appends the calls in `log`, with repeated lines folded, as `poll 0 x3`. `form` is `calls` for
/// whole lines, `words` for their first words, or `watching` for polls, kills and pauses.
///
/// # Errors
///
/// - `NoMemory`: an allocation failed.
pub fn push_calls(out: &mut ExampleOutput, form: &str, log: &str) -> Result<()> {
    let mut lines = Vec::new(out.alloc);
    for line in log.lines() {
        if let Some(call) = select_call(form, line) {
            lines.push(call)?;
        }
    }
    push_folded_lines(out, &lines);
    Ok(())
}

/// Appends the numbers of passed entries and of all `entries`, as `2 of 3 passed`. The verdict of
/// the first entry that did not pass follows, if any.
fn push_totals(out: &mut ExampleOutput, entries: &[Entry]) {
    let (mut passed, mut other) = (0usize, None);
    for entry in entries {
        match entry.verdict.kind() {
            Kind::Passed => passed = passed.saturating_add(1),
            _ => other = other.or(Some(entry)),
        }
    }
    write!(out, "{passed} of {} passed", entries.len());
    if let Some(entry) = other {
        out.push(", ");
        push_verdict(out, &entry.verdict);
    }
}

/// Appends the number of kills in `log`, and the number of directories that were made but not
/// removed, as `1 killed, 0 left`. A failed kill or removal counts as done. Directories with the
/// name `work` don't count, because they are inside other directories.
fn push_leftovers(out: &mut ExampleOutput, log: &str) {
    let (mut killed, mut left) = (0usize, 0usize);
    for line in log.lines() {
        if line.starts_with("kill ") {
            killed = killed.saturating_add(1);
        } else if line.starts_with("remove ") {
            left = left.saturating_sub(1);
        } else if line.starts_with("make ") && !line.ends_with(" failed") {
            left = left.saturating_add(usize::from(!line.ends_with("/work")));
        }
    }
    write!(out, "{killed} killed, {left} left");
}

/// Appends the part of `run` that the keyword `keyword` selects to `out`.
///
/// `calls`, `words` and `watching` select calls, `spawns` the started programs, and `spawned` their
/// number. `left` selects the numbers of kills and of remaining directories, and `totals` the
/// number of passed cases. Any other keyword selects a part of the entries.
fn push_run_part(
    out: &mut ExampleOutput,
    keyword: &str,
    run: &DriverRun<ScriptedSystem<'_>>,
) -> Result<()> {
    let (log, spawned) = (run.os.log.as_str()?, run.os.spawn_log.as_str()?);
    match keyword {
        "calls" | "words" | "watching" => return push_calls(out, keyword, log),
        "spawns" => out.push(spawned.trim()),
        "spawned" => write!(out, "{} spawned", spawned.lines().count()),
        "left" => push_leftovers(out, log),
        "totals" => push_totals(out, run.entries.as_slice()),
        _ => push_entries(out, keyword, run.entries.as_slice()),
    }
    Ok(())
}

/// Copies the strings `first` and `second` into `Text` values.
fn copy_texts(alloc: Global, first: &str, second: &str) -> Result<(Text, Text)> {
    let first = Text::from_str(alloc, first)?;
    Ok((first, Text::from_str(alloc, second)?))
}

/// Executes `plan` with the width `width` by a new driver over `os`, and puts the entries into
/// `sink`. The driver creates its directories below `base`, and `source` is the directory of the
/// root Kyuafile. Returns the system, the recorded entries, and the error that ended the run early.
fn execute_plan<O: Os + Drop>(
    alloc: Global,
    os: O,
    plan: Items<Job>,
    width: u32,
    base: &Text,
    source: Text,
    mut sink: MemorySink,
) -> DriverRun<O>
    requires plan { IsPlan plan }
    requires width { IsWidth width }
{
    let (os, fault) = match Driver::new(alloc, os, base, source) {
        Err((DriverFault::NoMemory(_), os)) => (os, Some("out of memory")),
        Err((DriverFault::NoWorkDirectory, os)) => (os, Some("failed")),
        Ok(mut driver) => {
            let fault = match run_driver(alloc, plan, width, &mut driver, &mut sink) {
                Ok(_) => None,
                Err(RunFault::NoMemory(_) | RunFault::SinkFailed(SinkFault::Memory)) => {
                    Some("out of memory")
                }
                Err(_fault) => Some("failed"),
            };
            (driver.close(), fault)
        }
    };
    DriverRun {
        os,
        entries: sink.entries,
        fault,
    }
}

/// Executes the plan of `example` over a scripted system that follows `scene`.
fn run_plan<'a>(example: &Example<'_>, scene: &'a Scene) -> Result<DriverRun<ScriptedSystem<'a>>> {
    let alloc = scene.alloc;
    let width = parse_number_up_to(example.find_text("width"), MAX_WIDTH)?;
    let limit = parse_number_up_to(example.find_text("limit"), MAX_TIMEOUT_SECONDS)?;
    let failing = example.find_number("failing", 0)? as usize;
    let variables = parse_pairs(alloc, example.lines.as_slice(), "variable");
    let letters = unescape(alloc, example.find_text("plan").unwrap_or(""));
    let (letters, variables) = zip_results(letters, variables)?;
    let base = example.find_text("base").unwrap_or("");
    let source = example.find_text("source").unwrap_or("/t");
    let (base, source) = copy_texts(alloc, base, source)?;
    let program = example.find_text("program").unwrap_or("d/p");
    let plan = create_plan(alloc, program, &letters, limit, &variables)?;
    let sink = MemorySink::new(alloc, failing);
    let os = ScriptedSystem::new(scene);
    Ok(execute_plan(alloc, os, plan, width, &base, source, sink))
}

/// Executes the plan of `example` once, over a system that follows `scene`. Appends the parts of
/// the result that `show WORDS` selects, by default the entries, and the error that ended the run
/// early, if any.
fn push_run(out: &mut ExampleOutput, example: &Example<'_>, scene: &Scene) -> Result<()> {
    let run = run_plan(example, scene)?;
    for keyword in example
        .find_text("show")
        .unwrap_or("entries")
        .split_whitespace()
    {
        out.push_separator("\n");
        push_run_part(out, keyword, &run)?;
    }
    if let Some(fault) = run.fault {
        out.push_line(fault);
    }
    Ok(())
}

/// Executes the plan of `example` once for each line `fails CALLS`, or once without such a line,
/// and appends each result to `out`. The systems follow `scene`.
fn push_plan_output(
    out: &mut ExampleOutput,
    example: &Example<'_>,
    mut scene: Scene,
) -> Result<()> {
    if example.find_text("fails").is_none() {
        return push_run(out, example, &scene);
    }
    for line in example.lines.as_slice() {
        if line.keyword == "fails" {
            scene.failing_calls = parse_call_range(line.text)?;
            push_run(out, example, &scene)?;
        }
    }
    Ok(())
}

/// Lists the cases of `program` with the variables `variables`, by a new driver over `os`. The
/// driver creates its directories below `base`, and `source` is the directory of the root Kyuafile.
/// Returns the system and the listing, or `None` if the driver can't be created.
fn list_cases<O: Os + Drop>(
    alloc: Global,
    os: O,
    base: &Text,
    source: Text,
    program: &Program,
    variables: &Variables,
) -> (O, Option<Listing>) {
    match Driver::new(alloc, os, base, source) {
        Err((_fault, os)) => (os, None),
        Ok(mut driver) => {
            let listing = driver.list(program, variables);
            (driver.close(), Some(listing))
        }
    }
}

/// Appends `listing`: the outcome with the length of the list or the error of reading it, or the
/// cause of a failed start. Without a listing, appends `no driver`.
fn push_listing(out: &mut ExampleOutput, listing: &Option<Listing>) {
    match listing {
        None => out.push("no driver"),
        Some(Listing::Refused(cause)) => write!(out, "Refused({cause:?})"),
        Some(Listing::Ended(outcome, ListBytes::Read(bytes))) => {
            write!(out, "{outcome:?}, {} bytes", bytes.len());
        }
        Some(Listing::Ended(how, bytes)) => write!(out, "{how:?}, {bytes:?}"),
    }
}

/// Creates an ATF test program with the path `d/p`.
fn create_program(alloc: Global) -> Result<Program> {
    let (path, suite) = copy_texts(alloc, "d/p", "s")?;
    Ok(Program {
        interface: Interface::Atf,
        path,
        suite,
        props: Props::new(alloc),
    })
}

/// Lists the cases of a program over a scripted system that follows `scene`. `example` has the
/// directory below which the driver creates its directories (`base PATH`), and the suite's
/// variables (`variable NAME=VALUE`).
fn list_program<'a>(
    example: &Example<'_>,
    scene: &'a Scene,
) -> Result<(ScriptedSystem<'a>, Option<Listing>)> {
    let alloc = scene.alloc;
    let variables = parse_pairs(alloc, example.lines.as_slice(), "variable");
    let (program, variables) = zip_results(create_program(alloc), variables)?;
    let (base, source) = copy_texts(alloc, example.find_text("base").unwrap_or(""), "/t")?;
    let os = ScriptedSystem::new(scene);
    Ok(list_cases(alloc, os, &base, source, &program, &variables))
}

/// Lists the cases of a program over a system that follows `scene`, and appends the first words of
/// the calls and the result. With `show spawns` in `example`, also appends the programs that were
/// started.
fn push_list_output(out: &mut ExampleOutput, example: &Example<'_>, scene: &Scene) -> Result<()> {
    let (os, listing) = list_program(example, scene)?;
    push_calls(out, "words", os.log.as_str()?)?;
    if example.find_text("show") == Some("spawns") {
        out.push_line(os.spawn_log.as_str()?.trim());
    }
    out.push_separator("\n");
    push_listing(out, &listing);
    Ok(())
}

/// Reads the endless file `file`, and returns the number of bytes that were read, and `true` if
/// more bytes are known to follow. With `limit`, `read_and_peek` reads at most `limit` bytes, as of
/// a child's output. Without it, `read_up_to` reads the file as a Kyuafile. Returns `None` if the
/// read fails.
fn read_endless_file(
    alloc: Global,
    file: &mut EndlessReader,
    limit: Option<u64>,
) -> Option<(usize, bool)> {
    let Some(limit) = limit else {
        let bytes = read_up_to(alloc, file, SCRIPT_READ_BYTES).ok()?;
        return Some((bytes.len(), false));
    };
    match read_and_peek(alloc, file, limit) {
        Ok(FileRead::Part(bytes, follows)) => Some((bytes.len(), follows)),
        _ => None,
    }
}

/// Reads an endless file, as `example` describes, and appends the result. With the line `limit
/// BYTES`, the file is read as an output, and otherwise as a Kyuafile.
fn push_read_output(out: &mut ExampleOutput, example: &Example<'_>) -> Result<()> {
    let mut file = EndlessReader {
        max_read_bytes: example.find_number("piece", 1)? as usize,
        remaining_reads: example.find_number("reads", u64::MAX)?,
        is_interrupted: example.find_text("interrupted").is_some(),
        returned_bytes: 0,
        failed_reads: 0,
    };
    let limit = example.find_text("limit").map(parse_number).transpose()?;
    let read = read_endless_file(out.alloc, &mut file, limit);
    let (given, failed) = (file.returned_bytes, file.failed_reads);
    match read {
        None => write!(out, "failed; {given} bytes given, {failed} reads failed"),
        Some((length, follows)) => {
            let more = if follows { " and more" } else { "" };
            write!(out, "{length} bytes{more}; {given} given");
        }
    }
    Ok(())
}

/// Executes an example of a scripted system, and appends its output. The first line is `plan
/// LETTERS`, `list` or `reader`.
///
/// # Errors
///
/// - `InvalidExample`: a line is missing or invalid.
/// - `NoMemory`: an allocation failed.
pub fn push_output(out: &mut ExampleOutput, example: &Example<'_>) -> Result<()> {
    let scene = parse_scene(out.alloc, example)?;
    match example.first_line()?.keyword {
        "plan" => push_plan_output(out, example, scene),
        "list" => push_list_output(out, example, &scene),
        "reader" => push_read_output(out, example),
        _ => Err(ExampleFault::InvalidExample("no such example of a system")),
    }
}
