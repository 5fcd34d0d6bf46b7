ghost use Rattle.std.specs.Prelude.{◌≡◌, flat_map, map, is_err, true};
ghost use Rattle.kt_report.specs.Common.{Emits, printable_byte, property_bytes, entry_bytes, with_properties, WritesEntry, reads_if_verbose};

use crate::{DetailSource, WriteReportError, line};
use kt_base::{Entry, OutputFault, Variable, Variables, emit, emit_all};
use std::io::Write;

/// Returns the byte that is printed for `byte` in the value of a property: `?` for a byte below 32,
/// else `byte`.
fn printable_byte(byte: u8) -> u8
    ensures { result ≡ printable_byte byte }
{
    if byte < 32 { b'?' } else { byte }
}

/// Writes `value`, the value of a property, with a question mark for each byte below 32.
fn write_value<W: Write>(value: &[u8], out: &mut W) -> Result<(), OutputFault>
    ensures { Emits (W.contents out.old) (W.contents out.new) (is_err result)
        (map printable_byte value.now) }
{
    for byte in value {
        emit(&[printable_byte(*byte)], out)?;
    }
    Ok(())
}

/// Writes the line of the property `pair`: its name and its value.
fn write_property<W: Write>(pair: &Variable, out: &mut W) -> Result<(), OutputFault>
    ensures { Emits (W.contents out.old) (W.contents out.new) (is_err result)
        (property_bytes pair.now) }
{
    emit_all(&[b"    ", pair.name.as_bytes(), b" = "], out)?;
    write_value(pair.value.as_bytes(), out)?;
    emit(b"\n", out)
}

/// Writes a line for each property in `pairs`: its name and its value.
fn write_properties<W: Write>(pairs: &[Variable], out: &mut W) -> Result<(), OutputFault>
    ensures { Emits (W.contents out.old) (W.contents out.new) (is_err result)
        (flat_map property_bytes pairs.now) }
{
    for pair in pairs {
        write_property(pair, out)?;
    }
    Ok(())
}

/// Writes the line of `entry`, followed by the lines of the properties `pairs`.
///
/// The properties in `entry` itself are not written.
fn write_full_entry<W: Write>(
    entry: &Entry,
    pairs: &Variables,
    out: &mut W,
) -> Result<(), OutputFault>
    ensures { Emits (W.contents out.old) (W.contents out.new) (is_err result)
        (entry_bytes true (with_properties entry.now pairs.now)) }
{
    line(entry, out)?;
    write_properties(pairs.as_slice(), out)
}

/// Writes the line of `entry`, followed by the lines of the properties that `details` reads.
fn write_verbose_entry<D: DetailSource, W: Write>(
    entry: &Entry,
    details: &mut D,
    out: &mut W,
) -> Result<(), WriteReportError<D::Fault, OutputFault>>
    ensures { WritesEntry D.reads_pairs details.old (W.contents out.old) (W.contents out.new)
        details.new (entry_bytes true) entry.now result }
{
    let written = match details.properties(entry) {
        Ok(Some(pairs)) => write_full_entry(entry, &pairs, out),
        Ok(None) => write_full_entry(entry, &entry.meta, out),
        Err(fault) => return Err(WriteReportError::Details(fault)),
    };
    match written {
        Ok(()) => Ok(()),
        Err(fault) => Err(WriteReportError::Report(fault)),
    }
}

/// Writes the line of `entry`, followed by the lines of its properties if `verbose` is `true`.
///
/// `details` reads the properties before the line is written. If `verbose` is `false`, none are
/// read.
///
/// # Errors
///
/// - `Details`: the read fails. Nothing was written.
/// - `Report`: a write fails. A proper prefix of the lines was written.
pub fn write_entry<D: DetailSource, W: Write>(
    verbose: bool,
    entry: &Entry,
    details: &mut D,
    out: &mut W,
) -> Result<(), WriteReportError<D::Fault, OutputFault>>
    ensures { WritesEntry (reads_if_verbose verbose D.reads_pairs) details.old (W.contents out.old)
        (W.contents out.new) details.new (entry_bytes verbose) entry.now result }
{
    if verbose {
        return write_verbose_entry(entry, details, out);
    }
    match line(entry, out) {
        Ok(()) => Ok(()),
        Err(fault) => Err(WriteReportError::Report(fault)),
    }
}
