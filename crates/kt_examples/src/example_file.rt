use crate::example::{Example, ExampleLine};
use crate::example_fault::{ExampleFault, Result, convert_error};
use std::alloc::Global;

/// Splits `line`, a line of input, at its first space into the keyword and the text.
fn parse_line(line: &str) -> ExampleLine<'_> {
    let (keyword, text) = line.split_once(' ').unwrap_or((line, ""));
    let text = text.trim();
    ExampleLine { keyword, text }
}

/// Splits `line` at its arrow, ` -> `, into input and expected output. A line without an arrow is
/// input alone.
fn split_at_arrow(line: &str) -> (&str, Option<&str>) {
    if let Some(front) = line.strip_suffix(" ->") {
        return (front.trim(), Some(""));
    }
    match line.split_once(" -> ") {
        Some((front, expected)) => (front.trim(), Some(expected.trim())),
        None => (line, None),
    }
}

/// Returns `true` if the last example has no expected output yet.
fn is_last_example_incomplete(examples: &[Example<'_>]) -> bool {
    examples
        .last()
        .is_some_and(|example| example.expected.is_empty())
}

/// Appends the line `expected` to the expected output of the last example. Fails if there is no
/// example yet.
fn push_output_line<'a>(examples: &mut Vec<Example<'a>>, expected: &'a str) -> Result<()> {
    let fault = ExampleFault::InvalidExample("expected output without input");
    convert_error(examples.last_mut().ok_or(fault)?.expected.push(expected))
}

/// Appends a line to the input of the last example. The text after an arrow in the line is appended
/// to the expected output.
fn push_input_line<'a>(examples: &mut Vec<Example<'a>>, line: &'a str) -> Result<()> {
    let (front, expected) = split_at_arrow(line);
    if let Some(example) = examples.last_mut() {
        example.lines.push(parse_line(front))?;
    }
    match expected {
        Some(expected) => push_output_line(examples, expected),
        None => Ok(()),
    }
}

/// Parses one line of a `.rows` file, and adds it to `examples`.
///
/// Empty lines and comments are skipped. A line of input after expected output begins a new
/// example.
fn add_line<'a>(
    alloc: Global,
    examples: &mut Vec<Example<'a>>,
    line: u64,
    text: &'a str,
) -> Result<()> {
    if text.is_empty() || text.starts_with('#') {
        return Ok(());
    }
    if let Some(expected) = text.strip_prefix("->") {
        return push_output_line(examples, expected.trim());
    }
    if !is_last_example_incomplete(examples) {
        examples.push(Example {
            line_number: line,
            lines: Vec::new(alloc),
            expected: Vec::new(alloc),
        })?;
    }
    push_input_line(examples, text)
}

/// Parses the text of a `.rows` file into its examples.
///
/// # Errors
///
/// Each error comes with the number of its line, counted from 1.
///
/// - `InvalidExample`: expected output precedes all input, or the last example has no expected
///   output.
/// - `NoMemory`: an allocation failed.
pub fn parse_examples<'a>(
    alloc: Global,
    text: &'a str,
) -> Result<Vec<Example<'a>>, (u64, ExampleFault)> {
    let mut examples = Vec::new(alloc);
    let mut number: u64 = 0;
    for line in text.lines() {
        number = number.saturating_add(1);
        if let Err(fault) = add_line(alloc, &mut examples, number, line.trim()) {
            return Err((number, fault));
        }
    }
    if is_last_example_incomplete(&examples) {
        return Err((
            number,
            ExampleFault::InvalidExample("the last example has no expected output"),
        ));
    }
    Ok(examples)
}
