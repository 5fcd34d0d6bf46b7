ghost use Rattle.std.specs.Prelude.{◌≡◌, ◌<◌, ◌≤◌, ℕ, length, map, List, ◌++◌, IfOk};
ghost use Rattle.kt_store.specs.Common.{utf8, AllByRecursion, AreWide, Blob, column, no_output, IsValidEntry, IsEncodableProperty, IsEncodable, entry_columns, outline_entry, pair_columns, full_entry_columns};
ghost use Rattle.kt_base.specs.declared.entry.Entry.{Entry as Stored};
ghost use Rattle.sqlite_value.specs.declared.value.Value.TheVariants.{Text as Words};
ghost use Rattle.kt_base.specs.declared.entry.Output.{Output as Pair};
ghost use Rattle.kt_base.specs.declared.variable.Variable.{Variable as StoredPair};
ghost use Rattle.sqlite.specs.Order.{Row as Values};

use crate::heads::push_item;
use crate::statements::get_column;
use crate::store_fault::{DatabaseError, require_present};
use crate::value::kind_from_code;
use kt_base::{Bytes, Entry, Output, Text, Variable, Variables, Verdict};
use sqlite::Row;
use std::alloc::Global;

/// Reads a text from the column with the index `at` of a row. Fails if the column has no text.
fn get_text(row: &Row, at: usize) -> Result<Text, DatabaseError>
    requires { at < length row.now }
    ensures text { (t : List ℕ) → IsEncodable t → column row.now at ≡ Words (utf8 t)
        → IfOk result (λ x. x ≡ t) }
{
    let string = get_column::<String>(row, at)?;
    Ok(Text::from_string(string))
}

/// Reads a property of an entry from `row`, whose first two columns are the name and the value.
fn property_from_row(row: &Row) -> Result<Variable, DatabaseError>
    requires { 2 ≤ length row.now }
    ensures { (v : StoredPair) → IsEncodableProperty v → row.now ≡ pair_columns v
        → IfOk result (λ x. x ≡ v) }
{
    let name = get_text(row, 0)?;
    let value = get_text(row, 1)?;
    Ok(Variable { name, value })
}

/// Reads the properties of an entry from `rows`, in the same order. The first two columns of a row
/// are the name and the value of a property.
///
/// # Errors
///
/// - `NoMemory`: an allocation failed.
/// - `Failed`: a column isn't a text.
pub fn properties_from_rows(alloc: Global, rows: &[Row]) -> Result<Variables, DatabaseError>
    requires { AreWide 2 rows.now }
    ensures { (vs : List StoredPair) → AllByRecursion IsEncodableProperty vs
        → rows.now ≡ map pair_columns vs
        → IfOk result (λ x. x ≡ vs) }
{
    let mut pairs = Variables::new(alloc);
    for row in rows {
        pairs.push(property_from_row(row)?)?;
    }
    Ok(pairs)
}

/// Returns an output whose standard output and standard error are empty. Allocates nothing.
pub fn empty_output(alloc: Global) -> Output
    ensures { result ≡ no_output }
{
    Output {
        out: Bytes::new(alloc),
        err: Bytes::new(alloc),
    }
}

/// Reads the bytes of the blob in the column with the index `at` of a row. Fails if it has no blob.
fn get_bytes(row: &Row, at: usize) -> Result<Bytes, DatabaseError>
    requires { at < length row.now }
    ensures bytes { IfOk result (λ b. column row.now at ≡ Blob b) }
{
    let items = get_column::<Vec<u8>>(row, at)?;
    Ok(Bytes::from_vec(items))
}

/// Reads the output of a body or a cleanup from a row. `out` and `err` are the indexes of the
/// columns of standard output and standard error.
fn get_output(row: &Row, out: usize, err: usize) -> Result<Output, DatabaseError>
    requires { (out < length row.now) × (err < length row.now) }
    ensures output { (o : Pair) → column row.now out ≡ Blob o.out → column row.now err ≡ Blob o.err
        → IfOk result (λ x. x ≡ o) }
{
    let out = get_bytes(row, out)?;
    let err = get_bytes(row, err)?;
    Ok(Output { out, err })
}

/// Reads an entry from its row, without the entry's properties and outputs. The first seven columns
/// of `row` are those of [`outline_from_rows`].
fn entry_outline_from_row(alloc: Global, row: &Row) -> Result<Entry, DatabaseError>
    requires { 7 ≤ length row.now }
    ensures { (e : Stored) (more : Values) → IsValidEntry e → row.now ≡ entry_columns e ++ more
        → IfOk result (λ x. x ≡ outline_entry e) }
{
    let position = get_column::<u32>(row, 0)?;
    let code = get_column::<u64>(row, 3)?;
    let kind = require_present(kind_from_code(code))?;
    let started = get_column::<u64>(row, 5)?;
    let millis = get_column::<u64>(row, 6)?;
    let program = get_text(row, 1)?;
    let case_name = get_text(row, 2)?;
    let reason = get_text(row, 4)?;
    Ok(Entry {
        position,
        program,
        case_name,
        verdict: Verdict::from_kind(kind, reason),
        started,
        millis,
        body: empty_output(alloc),
        cleanup: empty_output(alloc),
        meta: Variables::new(alloc),
    })
}

/// Reads entries from their rows, without their properties and outputs, in the order of the rows.
///
/// A row begins with the position, the program, the name of the case, and the number of the
/// verdict's kind. The reason, the start and the duration follow.
///
/// # Errors
///
/// - `NoMemory`: an allocation failed.
/// - `Failed`: a column has a wrong type or is out of range, or the number of the verdict's kind is
///   above 4.
pub fn outline_from_rows(alloc: Global, rows: &[Row]) -> Result<Vec<Entry>, DatabaseError>
    requires { AreWide 7 rows.now }
    ensures { (es : List Stored) → AllByRecursion IsValidEntry es → rows.now ≡ map entry_columns es
        → IfOk result (λ found. found.items ≡ map outline_entry es) }
{
    let mut entries = Vec::new(alloc);
    for row in rows {
        let entry = entry_outline_from_row(alloc, row)?;
        push_item(&mut entries, entry)?;
    }
    Ok(entries)
}

/// Reads an entry with its outputs from `row`, which has the columns of the query for entries. Sets
/// the properties of the entry to `meta`.
pub(crate) fn entry_from_row(
    alloc: Global,
    row: &Row,
    meta: Variables,
) -> Result<Entry, DatabaseError>
    requires { 11 ≤ length row.now }
    ensures { (e : Stored) → IsValidEntry e → row.now ≡ full_entry_columns e → meta ≡ e.meta
        → IfOk result (λ x. x ≡ e) }
{
    let mut entry = entry_outline_from_row(alloc, row)?;
    entry.body = get_output(row, 7, 8)?;
    entry.cleanup = get_output(row, 9, 10)?;
    entry.meta = meta;
    Ok(entry)
}
