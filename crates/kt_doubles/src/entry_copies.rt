ghost use Rattle.std.specs.Prelude.{◌≡◌, map, IfOk};
ghost use Rattle.kt_doubles.specs.Common.{outline_entry, outputs_of};

use kt_base::{Entry, NoMemory, Output, Text, Variables, Verdict};
use kt_store::{CaseOutputs, empty_output};
use std::alloc::Global;

/// Copies a verdict. The copy owns the text of its reason.
fn copy_verdict(alloc: Global, verdict: &Verdict) -> Result<Verdict, NoMemory>
    ensures { IfOk result (λ copy. copy ≡ verdict.now) }
{
    let mut reason = Text::new(alloc);
    verdict.write_reason(&mut reason)?;
    Ok(Verdict::from_kind(verdict.kind(), reason))
}

/// Copies the output of a body or a cleanup.
fn copy_output(output: &Output) -> Result<Output, NoMemory>
    ensures { IfOk result (λ copy. copy ≡ output.now) }
{
    Ok(Output {
        out: output.out.copy()?,
        err: output.err.copy()?,
    })
}

/// Copies the outputs of an entry's body and cleanup.
///
/// # Errors
///
/// - `NoMemory`: an allocation fails.
pub fn copy_outputs(entry: &Entry) -> Result<CaseOutputs, NoMemory>
    ensures { IfOk result (λ copy. copy ≡ outputs_of entry.now) }
{
    Ok(CaseOutputs {
        body: copy_output(&entry.body)?,
        cleanup: copy_output(&entry.cleanup)?,
    })
}

/// Copies an entry without its properties and outputs. The copy owns the text of its reason.
fn copy_entry_outline(alloc: Global, entry: &Entry) -> Result<Entry, NoMemory>
    ensures { IfOk result (λ copy. copy ≡ outline_entry entry.now) }
{
    Ok(Entry {
        position: entry.position,
        program: entry.program.copy()?,
        case_name: entry.case_name.copy()?,
        verdict: copy_verdict(alloc, &entry.verdict)?,
        started: entry.started,
        millis: entry.millis,
        meta: Variables::new(alloc),
        body: empty_output(alloc),
        cleanup: empty_output(alloc),
    })
}

/// Copies an entry with its properties and outputs.
///
/// # Errors
///
/// - `NoMemory`: an allocation fails.
pub fn copy_full_entry(alloc: Global, entry: &Entry) -> Result<Entry, NoMemory>
    ensures { IfOk result (λ copy. copy ≡ entry.now) }
{
    let mut copy = copy_entry_outline(alloc, entry)?;
    copy.meta = entry.meta.copy()?;
    copy.body = copy_output(&entry.body)?;
    copy.cleanup = copy_output(&entry.cleanup)?;
    Ok(copy)
}

/// Copies entries without their properties and outputs, in the same order.
///
/// # Errors
///
/// - `NoMemory`: an allocation fails.
pub fn copy_entry_outlines(alloc: Global, entries: &[Entry]) -> Result<Vec<Entry>, NoMemory>
    ensures { IfOk result (λ entry_copies. entry_copies.items ≡ map outline_entry entries.now) }
{
    let mut entry_copies = Vec::new(alloc);
    for entry in entries {
        entry_copies.push(copy_entry_outline(alloc, entry)?)?;
    }
    Ok(entry_copies)
}
