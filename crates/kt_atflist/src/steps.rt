//! The state of the reader after each line of a list.

ghost use Rattle.std.specs.Prelude.{◌≡◌, true, false, List, ℕ, None, Some, IfOk};
ghost use Rattle.kt_atflist.specs.Blocks.{has_property, is_valid_property, with_property};
ghost use Rattle.kt_base.specs.Lossy.{lossy};
ghost use Rattle.kt_atflist.specs.Common.{names_of, case_name_in, begin_block, first_line_step, set_property, set_key, set_from_line, change_result, property_line_step, later_line_step, step_of, cases_with_block, cases_at_end, line_ident, line_key, line_value};

use crate::block::Block;
use crate::list_line::{is_case_name, line_ident, line_key, line_value};
use crate::names::NameSet;
use crate::reading::{ListReader, ListStep};
use crate::{CaseDef, ListCause};
use kt_base::{Items, NoMemory, Text, lossy};
use kt_metadata::{PropFault, property_name_of_key};
use std::alloc::Global;

/// Begins the block of the case `name`, and returns the reader's state after the block's first
/// line.
///
/// `cases` are the cases of the earlier blocks, and `names` are their names. Returns the fault
/// `RepeatedIdent` if one of these cases has the name `name`.
fn begin_block(
    alloc: Global,
    cases: Items<CaseDef>,
    mut names: NameSet,
    name: Text,
) -> Result<ListStep, NoMemory>
    requires { names ≡ names_of cases None }
    ensures { IfOk result (λ step. step ≡ begin_block cases name) }
{
    if names.contains(&name) {
        return Ok(ListStep::FaultyLine(ListCause::RepeatedIdent));
    }
    names.insert(alloc, &name)?;
    Ok(ListStep::NextState(ListReader {
        cases,
        names,
        block: Some(Block::new(alloc, name)),
    }))
}

/// Parses `line`, the first line of a block in a list of test cases, and returns the name of the
/// case.
///
/// Returns `NoIdent` if the line does not begin with `ident: `, or `BadValue` if the name is empty
/// or contains a colon.
fn parse_case_name(alloc: Global, line: &[u8]) -> Result<Result<Text, ListCause>, NoMemory>
    ensures { IfOk result (λ found. found ≡ case_name_in (line_ident line.now)) }
{
    match line_ident(line) {
        None => Ok(Err(ListCause::NoIdent)),
        Some(name) => {
            if !is_case_name(name) {
                return Ok(Err(ListCause::BadValue));
            }
            Ok(Ok(lossy(alloc, name)?))
        }
    }
}

/// Parses `line`, the first line of a block, and returns the state of the list's reader after the
/// line.
///
/// `cases` are the cases of the earlier blocks, and `names` are their names. If the line is faulty,
/// returns the cause of the fault instead.
fn read_first_line(
    alloc: Global,
    cases: Items<CaseDef>,
    names: NameSet,
    line: &[u8],
) -> Result<ListStep, NoMemory>
    requires { names ≡ names_of cases None }
    ensures { IfOk result (λ step. step ≡ first_line_step cases (case_name_in (line_ident
        line.now))) }
{
    match parse_case_name(alloc, line)? {
        Err(cause) => Ok(ListStep::FaultyLine(cause)),
        Ok(name) => begin_block(alloc, cases, names, name),
    }
}

/// Tries to set the property `name` of `block` to `value`, and returns `true` on success.
///
/// Returns `false` and leaves `block` unchanged if the property does not accept `value`, or if no
/// property has this name. The caller checks that the property is not set yet.
fn try_set(block: &mut Block, name: &Text, value: &Text) -> Result<bool, NoMemory>
    requires { has_property block.old.props name.now ≡ false }
    ensures good { IfOk result (λ good. good ≡ is_valid_property name.now value.now) }
    ensures set { IfOk result (λ good.
        good ≡ true → block.new ≡ with_property block.old name.now value.now) }
    ensures name { block.new.name ≡ block.old.name }
{
    match block.set(name, value) {
        Err(PropFault::NoMemory(refusal)) => Err(refusal),
        Err(_fault) => Ok(false),
        Ok(()) => Ok(true),
    }
}

/// Sets the property `name` of `block` to `value`, as in a line of the block, and returns the cause
/// of the line's fault, if any.
///
/// The cause is `UnknownKey` if `name` is `None`, since no property has the key of the line. It is
/// `RepeatedKey` if the property is already set, and `BadValue` if the property does not accept
/// `value`.
fn set_property(
    block: &mut Block,
    name: &Option<Text>,
    value: &Text,
) -> Result<Option<ListCause>, NoMemory>
    ensures change { IfOk result (λ fault.
        change_result block.new fault ≡ set_property block.old name.now value.now) }
    ensures name { block.new.name ≡ block.old.name }
{
    match name {
        None => Ok(Some(ListCause::UnknownKey)),
        Some(name) => {
            if block.has_property(name) {
                return Ok(Some(ListCause::RepeatedKey));
            }
            if !try_set(block, name, value)? {
                return Ok(Some(ListCause::BadValue));
            }
            Ok(None)
        }
    }
}

/// Sets the property of `block` with the key `key` to `value`.
///
/// Returns the cause of the fault in the line with this key and value, or `None` if the line has no
/// fault. The key `ident` is a fault, since only the first line of a block has this key.
fn set_key(
    alloc: Global,
    block: &mut Block,
    key: &Text,
    value: &Text,
) -> Result<Option<ListCause>, NoMemory>
    ensures change { IfOk result (λ fault.
        change_result block.new fault ≡ set_key block.old key.now value.now) }
    ensures name { block.new.name ≡ block.old.name }
{
    if key.is_equal_to("ident") {
        return Ok(Some(ListCause::RepeatedKey));
    }
    let name = property_name_of_key(alloc, key)?;
    set_property(block, &name, value)
}

/// Decodes `key` and `value` as UTF-8, and sets the property of `block` with this key to the value.
///
/// Bytes that aren't UTF-8 are decoded as U+FFFD. Returns the cause of the fault in the line with
/// this key and value, or `None` if the line has no fault.
fn decode_and_set(
    alloc: Global,
    block: &mut Block,
    key: &[u8],
    value: &[u8],
) -> Result<Option<ListCause>, NoMemory>
    ensures change { IfOk result (λ fault.
        change_result block.new fault ≡ set_key block.old (lossy key.now) (lossy value.now)) }
    ensures name { block.new.name ≡ block.old.name }
{
    let key = lossy(alloc, key)?;
    let value = lossy(alloc, value)?;
    set_key(alloc, block, &key, &value)
}

/// Parses `line` as `KEY: VALUE`, and sets the property of `block` with the key `KEY` to `VALUE`.
///
/// Returns the cause of the fault in the line, or `None` if the line has no fault.
fn set_from_line(
    alloc: Global,
    block: &mut Block,
    line: &[u8],
) -> Result<Option<ListCause>, NoMemory>
    ensures change { IfOk result (λ fault.
        change_result block.new fault ≡ set_from_line block.old (line_key line.now) (line_value
        line.now)) }
    ensures name { block.new.name ≡ block.old.name }
{
    match line_value(line) {
        None => Ok(Some(ListCause::BadLine)),
        Some(value) => {
            let key = line_key(line);
            if key.is_empty() {
                return Ok(Some(ListCause::BadLine));
            }
            decode_and_set(alloc, block, key, value)
        }
    }
}

/// Parses `line`, a line of `block` that sets a property, and returns the reader's state after it.
///
/// `cases` are the cases of the earlier blocks. `names` are the names of these cases and of the
/// case of `block`. If the line is faulty, returns the cause of the fault instead.
fn process_property_line(
    alloc: Global,
    cases: Items<CaseDef>,
    names: NameSet,
    mut block: Block,
    line: &[u8],
) -> Result<ListStep, NoMemory>
    requires { names ≡ names_of cases (Some block) }
    ensures { IfOk result (λ step. step ≡ property_line_step cases
        (set_from_line block (line_key line.now) (line_value line.now))) }
{
    match set_from_line(alloc, &mut block, line)? {
        Some(cause) => Ok(ListStep::FaultyLine(cause)),
        None => Ok(ListStep::NextState(ListReader {
            cases,
            names,
            block: Some(block),
        })),
    }
}

/// Appends the case of the finished block `block` to `cases`, the cases of the earlier blocks.
fn append_block(mut cases: Items<CaseDef>, block: Block) -> Result<Items<CaseDef>, NoMemory>
    ensures { IfOk result (λ all. all ≡ cases_with_block cases (Some block)) }
{
    cases.push(block.into_case())?;
    Ok(cases)
}

/// Parses `line`, a line of `block` after its first line, and returns the reader's state after it.
///
/// An empty line ends the block. `cases` are the cases of the earlier blocks. `names` are the names
/// of these cases and of the case of `block`. If the line is faulty, returns the cause of the fault
/// instead.
fn process_later_line(
    alloc: Global,
    cases: Items<CaseDef>,
    names: NameSet,
    block: Block,
    line: &[u8],
) -> Result<ListStep, NoMemory>
    requires { names ≡ names_of cases (Some block) }
    ensures { IfOk result (λ step. step ≡ later_line_step cases block line.now) }
{
    if !line.is_empty() {
        return process_property_line(alloc, cases, names, block, line);
    }
    let cases = append_block(cases, block)?;
    Ok(ListStep::NextState(ListReader {
        cases,
        names,
        block: None,
    }))
}

/// Parses `line`, a line of a list of test cases from line 3 on, and returns the reader's next
/// state.
///
/// `reading` is the state before the line. If the line is faulty, returns the cause of the fault
/// instead.
///
/// # Errors
///
/// - `NoMemory`: an allocation fails.
pub fn process_line(alloc: Global, reading: ListReader, line: &[u8]) -> Result<ListStep, NoMemory>
    ensures { IfOk result (λ step. step ≡ step_of reading line.now) }
{
    let ListReader {
        cases,
        names,
        block,
    } = reading;
    match block {
        None => read_first_line(alloc, cases, names, line),
        Some(block) => process_later_line(alloc, cases, names, block, line),
    }
}

/// Returns the test cases of a list that ends in the state `reading` of its reader.
///
/// The end of the list finishes a block that has begun.
///
/// # Errors
///
/// - `NoMemory`: an allocation fails.
pub fn finish_list(reading: ListReader) -> Result<Items<CaseDef>, NoMemory>
    ensures { IfOk result (λ cases. cases ≡ cases_at_end reading) }
{
    let ListReader { cases, block, .. } = reading;
    match block {
        None => Ok(cases),
        Some(block) => append_block(cases, block),
    }
}
