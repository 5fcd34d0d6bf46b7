use crate::printing::{create_writer, push_printed_text};
use kt_base::{
    Bytes, NoMemory, Reason, Text, Verdict, emit_number, emit_u128, lossy, write_until_failure,
};
use kt_examples::{
    Example, ExampleFault, ExampleLine, ExampleOutput, Result, ScriptedWriter, WriteFault,
    parse_kind, push_reason, unescape,
};
use std::alloc::Global;

/// Appends the verdict kind with the keyword `keyword`, and `good` if it counts as a success or
/// else `bad`.
fn push_kind(out: &mut ExampleOutput, keyword: &str) -> Result<()> {
    let kind = parse_kind(keyword)?;
    let quality = if kind.good() { "good" } else { "bad" };
    write!(out, "{}, {quality}", kind.word());
    Ok(())
}

/// Decodes bytes as text, with invalid UTF-8 replaced by U+FFFD. The bytes are split, joined and
/// copied before, to exercise these calls.
fn decode_text(alloc: Global, bytes: &[u8]) -> Result<Text, NoMemory> {
    let (front, back) = bytes.split_at(bytes.len() / 2);
    let mut joined = Bytes::from_slice(alloc, front)?;
    joined.append(back)?;
    let copied = Bytes::from_vec(joined.copy()?.into_vec());
    lossy(alloc, copied.as_slice())?.copy()
}

/// Parses `text` as a number below 2^128, and appends it as kt_base prints it.
fn push_number(out: &mut ExampleOutput, text: &str) -> Result<()> {
    let mut page = ScriptedWriter::new(out.alloc);
    if let Ok(n) = text.parse::<u64>() {
        let _ = emit_number(n, &mut page);
    } else if let Ok(n) = text.parse::<u128>() {
        let _ = emit_u128(n, &mut page);
    } else {
        return Err(ExampleFault::InvalidExample("no number"));
    }
    out.push_bytes(page.written_bytes()?);
    Ok(())
}

/// Sends `bytes` to a writer, and appends the numbers of sent bytes and of writes, and `done` or
/// `failed`. The line `taking N` limits each write to N bytes, which are 1 by default. The line
/// `failing WRITE` makes writes fail from write number WRITE on.
fn push_send_output(out: &mut ExampleOutput, example: &Example<'_>, bytes: &[u8]) -> Result<()> {
    let at_most = example.find_number("taking", 1)? as usize;
    let failing = example.find_number("failing", 0)?;
    let mut page = create_writer(out.alloc, at_most, failing, WriteFault::Broken);
    let (count, failed) = write_until_failure(bytes, &mut page);
    page.written_bytes()?;
    let end = if failed { "failed" } else { "done" };
    write!(out, "{count} in {} writes, {end}", page.writes);
    Ok(())
}

/// Executes an example with the keyword `keyword` and the decoded bytes `bytes`, and appends its
/// output.
fn push_bytes_output(
    out: &mut ExampleOutput,
    example: &Example<'_>,
    keyword: &str,
    bytes: Vec<u8>,
) -> Result<()> {
    match keyword {
        "words" => {
            let reason = Reason::Owned(lossy(out.alloc, &bytes)?);
            push_reason(out, &Verdict::broken(reason))
        }
        "bytes" => {
            out.push_text(decode_text(out.alloc, &bytes));
            Ok(())
        }
        "send" => push_send_output(out, example, &bytes),
        "emit" => push_printed_text(out, &[bytes], false),
        _ => Err(ExampleFault::InvalidExample("no such example of a reason")),
    }
}

/// Executes an example of a verdict's kind, a number, a reason or bytes, and appends the output.
/// The first line is `kind WORD`, `number N`, `words TEXT`, `nothing`, `bytes TEXT`, `send TEXT` or
/// `emit TEXT`.
///
/// # Errors
///
/// - `InvalidExample`: a line is missing or invalid.
/// - `NoMemory`: an allocation failed.
pub fn push_output(out: &mut ExampleOutput, example: &Example<'_>) -> Result<()> {
    let ExampleLine { keyword, text } = example.first_line()?;
    match keyword {
        "kind" => push_kind(out, text),
        "number" => push_number(out, text),
        "nothing" => push_reason(out, &Verdict::broken(Reason::Nothing)),
        _ => push_bytes_output(out, example, keyword, unescape(out.alloc, text)?),
    }
}
