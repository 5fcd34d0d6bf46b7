//! Calls on a results store, and the output of each call.

use crate::ExampleStore;
use kt_base::LATEST_MOMENT_MILLIS;
use kt_examples::{
    ExampleFault, ExampleLine, ExampleOutput, Result, find_number, parse_count, parse_number,
    parse_storable_entry, push_entries, retry_once,
};
use kt_store::{RunHead, StoreFault};

/// Appends `done` if a call succeeded, or else the name of its error.
fn push_done_or_error(out: &mut ExampleOutput, done: Result<(), StoreFault>) {
    match done {
        Ok(()) => out.push("done"),
        Err(fault) => out.push_name(&fault),
    }
}

/// Begins `times` runs in `results`, and appends the number of the last run or the error to `out`.
///
/// `text` is `TOTAL MOMENT`: the number of cases and the start of each run, in milliseconds since
/// 1970 in UTC. The default of MOMENT is 0.
fn execute_begin<R: ExampleStore>(
    out: &mut ExampleOutput,
    results: &mut R,
    text: &str,
    times: u64,
) -> Result<()> {
    let (total, moment) = text.split_once(' ').unwrap_or((text, "0"));
    let total = parse_count(total)?;
    let moment = parse_number(moment)?.min(LATEST_MOMENT_MILLIS);
    let mut last = Ok(0);
    for _ in 0..times {
        if last.is_ok() {
            last = retry_once!(StoreFault, results.begin(total, moment));
        }
    }
    match last {
        Ok(number) => write!(out, "run {number}"),
        Err(fault) => out.push_name(&fault),
    }
    Ok(())
}

/// Puts `times` entries into `results`, and appends `done` or the error of the first put that fails
/// to `out`.
///
/// `text` is `RUN POSITION VERDICT`: the run, the position of the first entry and the verdict of
/// each entry. The lines `content` describe the other parts of each entry.
fn execute_put<R: ExampleStore>(
    out: &mut ExampleOutput,
    results: &mut R,
    text: &str,
    content: &[ExampleLine<'_>],
    times: u64,
) -> Result<()> {
    let (run, rest) = text.split_once(' ').unwrap_or((text, ""));
    let (first, verdict) = rest.split_once(' ').unwrap_or((rest, "passed"));
    let run = parse_number(run)?;
    let mut place = parse_count(first)?;
    let mut done = Ok(());
    for _ in 0..times {
        if done.is_ok() {
            let entry = parse_storable_entry(out.alloc, content, verdict, place)?;
            done = retry_once!(StoreFault, results.put(run, &entry));
            place = place.saturating_add(1);
        }
    }
    push_done_or_error(out, done);
    Ok(())
}

/// Returns `finished` or `unfinished`, the state of the run with the head `head`.
pub fn state_text(head: &RunHead) -> &'static str {
    if head.finished {
        "finished"
    } else {
        "unfinished"
    }
}

/// Appends the run of `results` with the head `head`, and the number of its entries, as `run 1 at
/// 500: 2 of 3, unfinished`.
fn push_run<R: ExampleStore>(out: &mut ExampleOutput, results: &mut R, head: &RunHead) {
    match results.entries(head.number) {
        Ok(entries) => {
            let (count, state) = (entries.len(), state_text(head));
            write!(out, "run {} at {}: ", head.number, head.started);
            write!(out, "{count} of {}, {state}", head.total);
        }
        Err(fault) => out.push_name(&fault),
    }
}

/// Appends the runs of `results`, one per line, or their number if `is_brief` is set.
pub fn push_runs<R: ExampleStore>(out: &mut ExampleOutput, results: &mut R, is_brief: bool) {
    let heads = match results.runs() {
        Ok(heads) => heads,
        Err(fault) => return out.push_name(&fault),
    };
    if is_brief {
        return write!(out, "{} runs", heads.len());
    }
    let mut separator = "";
    for head in heads.as_slice() {
        out.push(separator);
        push_run(out, results, head);
        separator = "\n";
    }
}

/// Appends the part of the entries of run `run` that `keyword` selects to `out`, or the number of
/// the entries if `keyword` is `count`. The entries are read from `results`.
fn push_run_entries<R: ExampleStore>(
    out: &mut ExampleOutput,
    results: &mut R,
    keyword: &str,
    run: u64,
) {
    match results.entries(run) {
        Ok(found) if keyword == "count" => write!(out, "{} entries", found.len()),
        Ok(found) => push_entries(out, keyword, found.as_slice()),
        Err(fault) => out.push_name(&fault),
    }
}

/// Executes the call in `line` on the store `results`, and appends the output of the call to `out`.
/// The lines `content` have the number of repetitions and describe the entry of a put. An error of
/// the store is part of the output.
///
/// # Errors
///
/// - `InvalidExample`: the line isn't a call on a store, or an argument is invalid.
/// - `NoMemory`: an allocation outside the store failed.
pub fn push_call<R: ExampleStore>(
    out: &mut ExampleOutput,
    results: &mut R,
    line: &ExampleLine<'_>,
    content: &[ExampleLine<'_>],
) -> Result<()> {
    let times = find_number(content, "times", 1)?;
    match line.keyword {
        "begin" => return execute_begin(out, results, line.text, times),
        "put" => return execute_put(out, results, line.text, content, times),
        "finish" => {
            let run = parse_number(line.text)?;
            push_done_or_error(out, retry_once!(StoreFault, results.finish(run)));
        }
        "runs" => push_runs(out, results, false),
        "count-runs" => push_runs(out, results, true),
        "cases" | "outputs" | "pairs" | "count" => {
            push_run_entries(out, results, line.keyword, parse_number(line.text)?);
        }
        _ => return Err(ExampleFault::InvalidExample("there is no such call")),
    }
    Ok(())
}
