//! Parses `.rows` files of examples, and runs the examples that need no suite, process or store.
#![tactic(auto)]

mod case_lists;
mod configurations;
mod entries;
mod escapes;
mod example;
mod example_fault;
mod example_file;
mod example_output;
mod numbers;
mod properties;
mod reports;
mod retry;
mod scripted_writer;
mod scripts;
mod streams;
mod verdicts;

pub use case_lists::CASE_LIST_HEADER;
pub use entries::{
    find_entry_lines, is_entry_line, parse_kind, parse_storable_entry, push_entries,
};
pub use escapes::{unescape, unescape_lossy, unescape_text};
pub use example::{Example, ExampleLine, append_unescaped, find_number, parse_pairs};
pub use example_fault::{
    ExampleFault, Result, convert_error, push_or_fail, require_part, split_once_or_fail,
    zip_results,
};
pub use example_file::parse_examples;
pub use example_output::ExampleOutput;
pub use numbers::{expand_copies, parse_count, parse_number, parse_number_up_to, parse_numbers};
pub use properties::push_properties;
pub use scripted_writer::{ScriptedWriter, WriteFault};
pub use verdicts::{parse_outcome, push_reason, push_verdict};

/// Executes `example`, and appends its output to `out`.
///
/// `subject` is the name of the example's file without `.rows`, such as `claims`.
///
/// # Errors
///
/// - `InvalidExample`: this crate has no such subject, or `example` doesn't have the format of its
///   subject.
/// - `NoMemory`: an allocation failed. A failed append to `out` is returned by
///   [`ExampleOutput::into_string`] instead.
pub fn push_example_output(
    out: &mut ExampleOutput,
    subject: &str,
    example: &Example<'_>,
) -> Result<()> {
    match subject {
        "claims" => streams::push_output(out, example, "file"),
        "configurations" => configurations::push_output(out, example),
        "lists" => case_lists::push_output(out, example),
        "properties" => properties::push_output(out, example),
        "reports" => reports::push_output(out, example),
        "scripts" => scripts::push_output(out, example),
        "taps" => streams::push_output(out, example, "tap"),
        "verdicts" => verdicts::push_output(out, example),
        _ => Err(ExampleFault::InvalidExample("no such subject")),
    }
}
