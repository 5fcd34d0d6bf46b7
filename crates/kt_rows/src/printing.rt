use kt_base::{NoMemory, emit};
use kt_cli::LineOutput;
use kt_examples::{
    Example, ExampleOutput, Result, ScriptedWriter, WriteFault, convert_error, push_or_fail,
    unescape,
};
use std::alloc::Global;
use std::io::Write;

/// Creates a writer that accepts at most `at_most` bytes per write and fails from write number
/// `failing_write` on. Writes are counted from 1, and no write fails if `failing_write` is 0.
/// `fault` is the way in which writes fail.
pub fn create_writer(
    alloc: Global,
    at_most: usize,
    failing_write: u64,
    fault: WriteFault,
) -> ScriptedWriter {
    let mut writer = ScriptedWriter::new(alloc);
    writer.at_most = at_most;
    writer.failing_write = failing_write;
    writer.fault = fault;
    writer
}

/// Prints `pieces` to `out`, even after a failed write, and then flushes `out` if `flushes` is set.
/// Returns `true` if nothing failed.
fn print_pieces<W: Write>(pieces: &[Vec<u8>], out: &mut W, flushes: bool) -> bool {
    let mut is_success = true;
    for piece in pieces {
        is_success = emit(piece.as_slice(), out).is_ok() && is_success;
    }
    (!flushes || out.flush().is_ok()) && is_success
}

/// Prints `pieces` to `out` and flushes them, through a line buffer if `to_lines` is set. Returns
/// `true` if nothing failed.
fn print_and_flush(pieces: &[Vec<u8>], to_lines: bool, out: &mut ScriptedWriter) -> bool {
    if to_lines {
        print_pieces(pieces, &mut LineOutput::new(out, true), true)
    } else {
        print_pieces(pieces, out, true)
    }
}

/// Checks the effects of a failed write of the writer `cut`. Returns a message if one of them is
/// wrong, else `None`.
///
/// The failure must be reported (`is_success` is `false`), and no write may follow it. The written
/// bytes must be a proper prefix of `whole`.
fn find_violation(
    whole: &[u8],
    cut: &ScriptedWriter,
    is_success: bool,
) -> Result<Option<&'static str>, NoMemory> {
    let written = cut.written_bytes()?;
    if is_success {
        return Ok(Some("all went well"));
    }
    if cut.writes != cut.failing_write {
        return Ok(Some("something was written after it"));
    }
    if written.len() >= whole.len() || !whole.starts_with(written) {
        return Ok(Some("no beginning was written"));
    }
    Ok(None)
}

/// Prints `pieces` into writers that accept `at_most` bytes per write, and appends a line for each
/// check that fails. A writer that doesn't fail must get the text `whole`. A writer that fails at
/// one of its first 100 writes must get a proper prefix of `whole`. If `to_lines` is `true`, a line
/// buffer is between the pieces and the writer.
fn push_violations(
    out: &mut ExampleOutput,
    pieces: &[Vec<u8>],
    to_lines: bool,
    whole: &[u8],
    at_most: usize,
) -> Result<()> {
    let mut slow = create_writer(out.alloc, at_most, 0, WriteFault::Broken);
    let is_success = print_and_flush(pieces, to_lines, &mut slow);
    if slow.written_bytes()? != whole || !is_success {
        out.push_line("another text into a slow writer");
    }
    for failing in 1..=slow.writes.min(100) {
        for fault in [
            WriteFault::Broken,
            WriteFault::Interrupted,
            WriteFault::ZeroBytes,
        ] {
            let mut cut = create_writer(out.alloc, at_most, failing, fault);
            let is_success = print_and_flush(pieces, to_lines, &mut cut);
            if let Some(what) = find_violation(whole, &cut, is_success)? {
                out.push_line(what);
            }
        }
    }
    Ok(())
}

/// Prints `pieces` into several writers, and appends a line for each check that fails, and then the
/// printed text. The writers accept all bytes, 7 bytes or 1 byte per write, and may fail at one of
/// the first 100 writes. If `to_lines` is set, a line buffer precedes each writer.
///
/// # Errors
///
/// - `NoMemory`: an allocation failed.
pub fn push_printed_text(
    out: &mut ExampleOutput,
    pieces: &[Vec<u8>],
    to_lines: bool,
) -> Result<()> {
    let mut page = ScriptedWriter::new(out.alloc);
    print_and_flush(pieces, to_lines, &mut page);
    let whole = page.written_bytes()?;
    for at_most in [usize::MAX, 7, 1] {
        push_violations(out, pieces, to_lines, whole, at_most)?;
    }
    out.push_bytes(whole);
    Ok(())
}

/// Prints the pieces in the lines `piece TEXT` of an example to a line buffer, and appends the
/// written text. The buffer is flushed, and the output is that of [`push_printed_text`]. With the
/// line `unflushed`, the buffer isn't flushed. With the lines `unflushed` and `held`, it doesn't
/// write complete lines either.
///
/// # Errors
///
/// - `InvalidExample`: an escape is invalid.
/// - `NoMemory`: an allocation failed.
pub fn push_pieces(out: &mut ExampleOutput, example: &Example<'_>) -> Result<()> {
    let mut pieces = Vec::new(out.alloc);
    for line in example.lines.as_slice() {
        if line.keyword == "piece" {
            push_or_fail(&mut pieces, unescape(out.alloc, line.text))?;
        }
    }
    if example.find_text("unflushed").is_none() {
        return push_printed_text(out, &pieces, true);
    }
    let mut page = ScriptedWriter::new(out.alloc);
    let mut lines = LineOutput::new(&mut page, example.find_text("held").is_none());
    print_pieces(&pieces, &mut lines, false);
    out.push_bytes(page.written_bytes()?);
    Ok(())
}

/// Appends the text that was written to `page`, and `(cut)` if its last line is incomplete.
///
/// # Errors
///
/// - `NoMemory`: an allocation failed.
pub fn push_written_text(out: &mut ExampleOutput, page: &ScriptedWriter) -> Result<()> {
    let bytes = page.written_bytes()?;
    out.push_bytes(bytes);
    if !bytes.is_empty() && !bytes.ends_with(b"\n") {
        out.push("(cut)\n");
    }
    Ok(())
}
