//! Examples of lists of ATF test cases, and of a program's cases by the result of listing them.

use crate::escapes::unescape;
use crate::example::{Example, append_copies, append_unescaped};
use crate::example_fault::{
    ExampleFault, Result, convert_error, require_part, split_once_or_fail, zip_results,
};
use crate::example_output::ExampleOutput;
use crate::properties::{push_properties, set_valid_property};
use crate::verdicts::{parse_outcome, parse_refusal, push_reason};
use kt_atflist::{CaseDef, ListBytes, Listing, cases, parse_list};
use kt_base::{Bytes, Interface, Items, Verdict};
use kt_metadata::Props;
use std::alloc::Global;

/// The header of a list of ATF test cases, followed by an empty line.
pub const CASE_LIST_HEADER: &str = "Content-Type: application/X-atf-tp; version=\"1\"\n\n";

/// Returns the bytes of a list of ATF test cases: the header, and then `blocks`, the text of the
/// cases, with its escapes decoded.
fn prepend_header(alloc: Global, blocks: &str) -> Result<Vec<u8>> {
    let mut text = CASE_LIST_HEADER.as_bytes().to_vec(alloc)?;
    append_unescaped(alloc, &mut text, blocks)?;
    Ok(text)
}

/// Creates the `Listing` of a program that printed `text`, the list of its cases. `ending` is the
/// program's outcome, such as `exited 0`. Fails if `text` is an error or `ending` isn't an outcome.
fn create_listing(ending: &str, text: Result<Vec<u8>>) -> Result<Listing> {
    let (text, ending) = zip_results(text, parse_outcome(ending))?;
    Ok(Listing::Ended(ending, ListBytes::Read(Bytes::from_vec(text))))
}

/// Parses `text` as the result of listing a program's cases.
///
/// `text` is `refused CAUSE`, or an outcome and then `blocks TEXT`, `list TEXT`, `unreadable` or
/// `too-long`.
fn parse_listing(alloc: Global, text: &str) -> Result<Listing> {
    if let Some(cause) = text.strip_prefix("refused ") {
        return parse_refusal(cause).map(Listing::Refused);
    }
    if let Some(ending) = text.strip_suffix(" unreadable") {
        return Ok(Listing::Ended(parse_outcome(ending)?, ListBytes::Unreadable));
    }
    if let Some(ending) = text.strip_suffix(" too-long") {
        return Ok(Listing::Ended(parse_outcome(ending)?, ListBytes::TooLong));
    }
    if let Some((ending, blocks)) = text.split_once(" blocks ") {
        return create_listing(ending, prepend_header(alloc, blocks));
    }
    let (ending, list) = split_once_or_fail(text, " list ", "an ending stands before a list")?;
    create_listing(ending, unescape(alloc, list))
}

/// Appends a new line for `case`: its name, the properties that differ from the defaults, and the
/// reason of its fault, if any.
fn push_case(out: &mut ExampleOutput, case: CaseDef) -> Result<()> {
    let CaseDef { name, props, fault } = case;
    out.push_line(name.as_str());
    push_properties(out, &props)?;
    if let Some(reason) = fault {
        out.push(": ");
        return push_reason(out, &Verdict::broken(reason));
    }
    Ok(())
}

/// Appends a line for each case in `found`, or only their number if the example contains the line
/// `count`.
fn push_cases(out: &mut ExampleOutput, example: &Example<'_>, found: Items<CaseDef>) -> Result<()> {
    if example.find_text("count").is_some() {
        write!(out, "{} cases", found.len());
        return Ok(());
    }
    for case in found.into_vec() {
        push_case(out, case)?;
    }
    Ok(())
}

/// Returns the bytes of the list of ATF test cases in `example`.
///
/// The list is the text of the line `list TEXT`. Without this line, the list is the header, the
/// text of the line `blocks TEXT`, and the copies of the lines `numbered COUNT TEXT`.
fn decode_case_list(alloc: Global, example: &Example<'_>) -> Result<Vec<u8>> {
    if let Some(text) = example.find_text("list") {
        return unescape(alloc, text);
    }
    let blocks = require_part(example.find_text("blocks"), "no list")?;
    append_copies(alloc, prepend_header(alloc, blocks), example)
}

/// Parses `keyword` as the interface of a test program: `atf`, `tap` or `plain`.
fn parse_interface(keyword: &str) -> Result<Interface> {
    match keyword {
        "atf" => Ok(Interface::Atf),
        "tap" => Ok(Interface::Tap),
        "plain" => Ok(Interface::Plain),
        _ => Err(ExampleFault::InvalidExample("no such interface")),
    }
}

/// Returns the cases of the program in an example. `keyword` is the program's interface: `atf`,
/// `tap` or `plain`.
///
/// The lines `set NAME=VALUE` of the example have the program's properties. The line `lists
/// LISTING` has the result of listing the program's cases, by default an unreadable list.
fn list_program_cases(
    alloc: Global,
    example: &Example<'_>,
    keyword: &str,
) -> Result<Items<CaseDef>> {
    let mut props = Props::new(alloc);
    let mut lists = "exited 0 unreadable";
    for line in example.lines.as_slice() {
        match line.keyword {
            "set" => set_valid_property(alloc, &mut props, line.text)?,
            "lists" => lists = line.text,
            _ => {}
        }
    }
    let (listing, interface) = zip_results(parse_listing(alloc, lists), parse_interface(keyword))?;
    convert_error(cases(alloc, interface, &props, &Some(listing)))
}

/// Appends the cases of an example: those of its program, or those of its list of cases. For an
/// invalid list, appends the error's message.
///
/// # Errors
///
/// - `InvalidExample`: a line is missing or invalid.
/// - `NoMemory`: an allocation failed.
pub fn push_output(out: &mut ExampleOutput, example: &Example<'_>) -> Result<()> {
    if let Some(keyword) = example.find_text("program") {
        return push_cases(
            out,
            example,
            list_program_cases(out.alloc, example, keyword)?,
        );
    }
    match parse_list(out.alloc, &decode_case_list(out.alloc, example)?) {
        Ok(found) => return push_cases(out, example, found),
        Err(fault) => write!(out, "{fault}"),
    }
    Ok(())
}
