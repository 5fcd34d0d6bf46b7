use crate::memory_sink::MemorySink;
use crate::plans::create_plan;
use crate::scripted_launcher::ScriptedLauncher;
use kt_base::{Entry, Variables};
use kt_examples::{
    Example, ExampleOutput, Result, parse_number_up_to, parse_numbers, push_entries, zip_results,
};
use kt_sched::{MAX_WIDTH, RunFault, Totals, run_cases};

/// Appends the lines of `log`, one for each call of a launcher's method, and a line with the
/// positions of `entries`, in the order in which they were put into the sink.
fn push_calls_and_puts(out: &mut ExampleOutput, log: &str, entries: &[Entry]) {
    for call in log.lines() {
        out.push_separator(", ");
        out.push(call);
    }
    out.push("\nput");
    for entry in entries {
        write!(out, " {}", entry.position);
    }
}

/// Returns the numbers of start calls in `log` for bodies and for cleanups, and the maximum number
/// of children at once. A failed start counts as a start of a child that never ends.
fn count_starts(log: &str) -> (usize, usize, usize) {
    let (mut bodies, mut cleanups, mut ended, mut most) = (0usize, 0usize, 0usize, 0usize);
    for call in log.lines() {
        if call.starts_with("end ") {
            ended = ended.saturating_add(1);
        } else if call.starts_with("start cleanup ") {
            cleanups = cleanups.saturating_add(1);
        } else {
            bodies = bodies.saturating_add(1);
        }
        most = most.max(bodies.saturating_add(cleanups).saturating_sub(ended));
    }
    (bodies, cleanups, most)
}

/// Appends a summary of a run with the calls `log` and the entries `entries`: `20 bodies, 10
/// cleanups, at most 4 at once; 20 entries by position`.
fn push_run_summary(out: &mut ExampleOutput, log: &str, entries: &[Entry]) {
    let (bodies, cleanups, most) = count_starts(log);
    write!(out, "{bodies} bodies, {cleanups} cleanups, ");
    write!(out, "at most {most} at once; {} entries ", entries.len());
    let are_by_position = entries.is_sorted_by(|one, next| one.position < next.position);
    out.push(if are_by_position {
        "by position"
    } else {
        "in another order"
    });
}

/// Appends `end`, the result of a run, to `out`, as `: 3 good, 1 bad of 4`, or its error. The line
/// `moments` of `example` adds `entries` with their times.
fn push_run_result(
    out: &mut ExampleOutput,
    example: &Example<'_>,
    end: Result<Totals, RunFault>,
    entries: &[Entry],
) {
    match end {
        Ok(Totals { good, bad, total }) => write!(out, ": {good} good, {bad} bad of {total}"),
        Err(fault) => write!(out, ": {fault}"),
    }
    if example.find_text("moments").is_some() {
        out.push_line("");
        push_entries(out, "cases", entries);
    }
}

/// Executes the plan of `example` over a scripted launcher and a sink in memory, and appends the
/// calls and totals. The line `brief` replaces the calls and puts by a summary.
///
/// # Errors
///
/// - `InvalidExample`: a line is missing or invalid.
/// - `NoMemory`: an allocation failed.
pub fn push_output(out: &mut ExampleOutput, example: &Example<'_>) -> Result<()> {
    let alloc = out.alloc;
    let width = parse_number_up_to(example.find_text("width"), MAX_WIDTH)?;
    let failing = example.find_number("failing", 0)? as usize;
    let letters = example.require_bytes(alloc, "plan", "no plan");
    let ends = parse_numbers(alloc, example.find_text("ends").unwrap_or(""));
    let moments = parse_numbers(alloc, example.find_text("moments").unwrap_or(""));
    let (letters, (ends, moments)) = zip_results(letters, zip_results(ends, moments))?;
    let plan = create_plan(alloc, "p", &letters, 300, &Variables::new(alloc))?;
    let mut launcher = ScriptedLauncher::new(alloc, &letters, &ends, &moments);
    let mut sink = MemorySink::new(alloc, failing);
    let end = run_cases(alloc, plan, width, &mut launcher, &mut sink);
    let (log, entries) = (launcher.log.as_str()?, sink.entries.as_slice());
    if example.find_text("brief").is_some() {
        push_run_summary(out, log, entries);
    } else {
        push_calls_and_puts(out, log, entries);
    }
    push_run_result(out, example, end, entries);
    Ok(())
}
