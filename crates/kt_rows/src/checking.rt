use crate::execute_example;
use kt_examples::{Example, ExampleFault, Result, convert_error, parse_examples, zip_results};
use std::alloc::Global;
use std::fs::File;
use std::io::Eprint;
use std::rt::{Files, Runtime};
use std::{env, fs, io};

/// The maximum number of bytes of an output in a message, unless `--whole` precedes the name of the
/// `.rows` file in the arguments.
const SHOWN_BYTES: usize = 1_000;

/// Returns the index of the first byte of the first line in which the outputs `expected` and
/// `found` differ.
fn find_difference(expected: &[u8], found: &[u8]) -> usize {
    let mut line = 0usize;
    for (place, (expected_byte, found_byte)) in expected.iter().zip(found).enumerate() {
        if *expected_byte != *found_byte {
            break;
        }
        if *expected_byte == b'\n' {
            line = place.saturating_add(1);
        }
    }
    line
}

/// Returns at most `max_bytes` bytes of the output `output` as a text, from the byte at index
/// `from` on. Invalid UTF-8 is replaced by U+FFFD.
fn cut_text(alloc: Global, output: &[u8], from: usize, max_bytes: usize) -> Result<String> {
    let rest = output.get(from..).unwrap_or(&[]);
    let part = rest.get(..max_bytes).unwrap_or(rest);
    convert_error(String::from_utf8_lossy(alloc, part))
}

/// Executes an example, and returns `None` if its output is as expected. Otherwise returns a
/// message with the file, the line and both outputs, from the first line that differs. `max_bytes`
/// is the maximum number of bytes of each output in the message.
fn check_example(
    alloc: Global,
    file: &str,
    example: &Example<'_>,
    max_bytes: usize,
) -> Result<Option<String>> {
    let subject = file.strip_suffix(".rows").unwrap_or(file);
    let (expected, found) = zip_results(
        example.expected_bytes(alloc),
        execute_example(alloc, subject, example),
    )?;
    let (expected, found) = (expected.as_slice(), found.as_bytes());
    if found == expected {
        return Ok(None);
    }
    let from = find_difference(expected, found);
    let line = example.line_number;
    let (expected, found) = zip_results(
        cut_text(alloc, expected, from, max_bytes),
        cut_text(alloc, found, from, max_bytes),
    )?;
    let text = format!(in alloc;
        "{file}:{line}: another answer\n  wanted: {expected:?}\n  got:    {found:?}"
    );
    convert_error(text).map(Some)
}

/// Prints `fault`, the error of an example or of parsing the file `file`, to standard error, with
/// the file and the line.
fn print_fault<R: Eprint>(rt: &R, file: &str, line: u64, fault: ExampleFault) -> io::Result<()> {
    let text = fault.message();
    eprintln!(rt; "{file}:{line}: {text}")
}

/// Checks the examples of the file `file`, prints a message for each example that fails, and then
/// prints the number of examples. Returns `true` if each output is as expected. `max_bytes` is the
/// maximum number of bytes of an output in a message.
fn check_examples<R: Runtime + AllocGlobal>(
    rt: &R,
    file: &str,
    examples: &[Example<'_>],
    max_bytes: usize,
) -> io::Result<bool> {
    let mut is_good = true;
    for example in examples {
        match check_example(rt.alloc(), file, example, max_bytes) {
            Ok(None) => continue,
            Ok(Some(lines)) => rt.eprintln(lines)?,
            Err(fault) => print_fault(rt, file, example.line_number, fault)?,
        }
        is_good = false;
    }
    let count = examples.len();
    println!(rt; "{file}: {count} rows")?;
    Ok(is_good)
}

/// Checks the examples in the file with the name `file`. `max_bytes` is the maximum number of bytes
/// of an output in a message. Returns `true` if the file is valid and each output is as expected.
fn check_file<R: Runtime + Files<File = File> + AllocGlobal>(
    rt: &R,
    file: &str,
    max_bytes: usize,
) -> io::Result<bool> {
    let text = fs::read_to_string(rt, file)?;
    match parse_examples(rt.alloc(), text.as_str()) {
        Ok(examples) => check_examples(rt, file, examples.as_slice(), max_bytes),
        Err((line, fault)) => {
            print_fault(rt, file, line, fault)?;
            Ok(false)
        }
    }
}

/// Checks the examples in the files that the arguments name. Returns `true` if each file is valid
/// and each output is as expected. After `--whole`, outputs that differ are printed to their ends.
///
/// # Errors
///
/// - The error of the system if the arguments or a file can't be read, or if a write fails.
pub fn check_files<R: Runtime + Files<File = File> + AllocGlobal>(rt: &R) -> io::Result<bool> {
    let mut is_good = true;
    let mut max_bytes = SHOWN_BYTES;
    for file in env::args(rt)?.skip(1) {
        if file.as_str() == "--whole" {
            max_bytes = usize::MAX;
        } else if !check_file(rt, file.as_str(), max_bytes)? {
            is_good = false;
        }
    }
    Ok(is_good)
}
