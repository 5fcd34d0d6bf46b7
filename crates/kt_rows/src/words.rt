use kt_args::{CaseOptions, Command, CommandFault, ReportOptions, read_command};
use kt_base::Text;
use kt_examples::{
    Example, ExampleOutput, Result, convert_error, parse_number, push_or_fail, require_part,
    split_once_or_fail, unescape_text,
};
use std::alloc::Global;
use std::slice;

/// Splits a command line into arguments at white space, and decodes the escapes of each argument.
///
/// # Errors
///
/// - `InvalidExample`: an escape is invalid, or an argument isn't UTF-8.
/// - `NoMemory`: an allocation failed.
pub fn split_command_line(alloc: Global, line: &str) -> Result<Vec<String>> {
    let mut arguments = Vec::new(alloc);
    for argument in line.split_whitespace() {
        push_or_fail(
            &mut arguments,
            unescape_text(alloc, argument).map(Text::into_string),
        )?;
    }
    Ok(arguments)
}

/// Parses a command line, and returns the command or the error in its arguments.
///
/// # Errors
///
/// - `InvalidExample`: an escape is invalid, or an argument isn't UTF-8.
/// - `NoMemory`: an allocation outside `read_command` failed.
pub fn parse_command_line(alloc: Global, line: &str) -> Result<Result<Command, CommandFault>> {
    let arguments = split_command_line(alloc, line)?;
    Ok(read_command(alloc, arguments.as_slice()))
}

/// Appends each of `values`, the values of an option, after `name`.
fn push_values(out: &mut ExampleOutput, name: &str, values: &[Text]) {
    for value in values {
        write!(out, "{name}{}", value.as_str());
    }
}

/// Appends the command `name`, which is `list`, `test` or `debug`, and its options: Kyuafile, work
/// directory, results file, configuration, variables and filters.
fn push_case_command(out: &mut ExampleOutput, name: &str, options: &CaseOptions, results: &[Text]) {
    let (directory, file) = (options.kyuafile.directory(), options.kyuafile.name());
    write!(out, "{name} {}{}", directory.as_str(), file.as_str());
    write!(out, ", work {}", options.work.as_str());
    push_values(out, ", results ", results);
    push_values(out, ", config ", options.config.as_slice());
    push_values(out, ", variable ", options.variables.as_slice());
    push_values(out, ", filter ", options.filters.as_slice());
}

/// Appends the report command `name` and its options: run, results file, configuration and
/// variables.
fn push_report_command(out: &mut ExampleOutput, name: &str, options: &ReportOptions) {
    match options.run {
        Some(run) => write!(out, "{name} {run}"),
        None => write!(out, "{name} last"),
    }
    write!(out, ", results {}", options.results.as_str());
    push_values(out, ", config ", options.config.as_slice());
    push_values(out, ", variable ", options.variables.as_slice());
}

/// Appends a command and the values of its options.
fn push_command(out: &mut ExampleOutput, command: &Command) {
    match command {
        Command::List(options) => push_case_command(out, "list", options, &[]),
        Command::Test { options, results } => {
            push_case_command(out, "test", options, slice::from_ref(results));
        }
        Command::Debug(options) => push_case_command(out, "debug", options, &[]),
        Command::Report {
            options,
            kinds,
            verbose,
        } => {
            push_report_command(out, "report", options);
            out.push(", kinds");
            for kind in kinds.as_slice() {
                write!(out, " {}", kind.word());
            }
            out.push(if *verbose { ", verbose" } else { "" });
        }
        Command::ReportJunit(options) => push_report_command(out, "report-junit", options),
    }
}

/// Appends the error of arguments that are rejected. A usage message is reduced to `usage`.
fn push_fault(out: &mut ExampleOutput, fault: &CommandFault) {
    match fault {
        CommandFault::Usage(text) if text.as_str().is_empty() => out.push("usage without a text"),
        CommandFault::Usage(_) => out.push("usage"),
        _ => write!(out, "{fault}"),
    }
}

/// Returns the arguments of the line `line WORDS`, and then N times the argument of `times N WORD`.
fn parse_arguments(alloc: Global, example: &Example<'_>) -> Result<Vec<String>> {
    let line = require_part(example.find_text("line"), "the row has no command line")?;
    let mut arguments = split_command_line(alloc, line)?;
    let times = example.find_text("times").unwrap_or("0 ");
    let (count, argument) = split_once_or_fail(times, " ", "a number and a word are due")?;
    for _ in 0..parse_number(count)? {
        push_or_fail(
            &mut arguments,
            convert_error(String::from_str(alloc, argument)),
        )?;
    }
    Ok(arguments)
}

/// Parses the command line of an example, and appends the command or the error. The example has
/// `line WORDS`, and may have `times N WORD` for N more arguments.
///
/// # Errors
///
/// - `InvalidExample`: a line is missing or invalid.
/// - `NoMemory`: an allocation outside `read_command` failed.
pub fn push_output(out: &mut ExampleOutput, example: &Example<'_>) -> Result<()> {
    match read_command(out.alloc, parse_arguments(out.alloc, example)?.as_slice()) {
        Ok(command) => push_command(out, &command),
        Err(fault) => push_fault(out, &fault),
    }
    Ok(())
}
