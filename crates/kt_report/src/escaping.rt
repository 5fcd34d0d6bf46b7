ghost use Rattle.std.specs.Prelude.{◌≡◌, ◌≤◌, [], ◌∷◌, ◌++◌, ◌==◌, ◌&&◌, not, false, true, bytes_eq, length, IfOk, OnOk};
ghost use Rattle.std.specs.List.{list_all};
ghost use Rattle.kt_report.specs.Common.{prefix_len, chars, lossy, case_texts, with_outputs, escaped, escaped_text};

use crate::case_texts::CaseTexts;
use kt_base::{Bytes, Entry, NoMemory, Output, Text, lossy};
use std::alloc::Global;

/// Appends the character `c` to `text`, escaped for an XML attribute if `attribute` is `true`, and
/// otherwise for the content of an element.
///
/// A character that XML doesn't allow becomes a question mark.
#[tactic(auto, unfolding(crate::proofs::Common::chars))]
fn push_escaped_char(text: &mut Text, attribute: bool, c: char) -> Result<(), NoMemory>
    ensures { OnOk result (text.new ≡ text.old ++ escaped attribute c) }
{
    match c {
        '&' => text.push_str("&amp;"),
        '<' => text.push_str("&lt;"),
        '>' => text.push_str("&gt;"),
        '"' => text.push_str("&quot;"),
        '\r' => text.push_str("&#13;"),
        '\t' if attribute => text.push_str("&#9;"),
        '\n' if attribute => text.push_str("&#10;"),
        '\t' | '\n' => text.push(c),
        _ if c < ' ' || c == '\u{fffe}' || c == '\u{ffff}' => text.push('?'),
        _ => text.push(c),
    }
}

/// Returns `true` if `byte`, a byte of UTF-8, is written to XML unchanged.
///
/// `attribute` is `true` for an attribute, and `false` for content. The result is `false` for byte
/// 239, with which U+FFFE and U+FFFF begin. The code has no branch, so that the compiler tests many
/// bytes at once.
fn is_unescaped(attribute: bool, byte: u8) -> bool
    ensures { result ≡ bytes_eq (escaped attribute byte) (byte ∷ []) && not (byte == 239) }
{
    let is_blank = !attribute & ((byte == b'\t') | (byte == b'\n'));
    let is_named = (byte == b'&') | (byte == b'<') | (byte == b'>') | (byte == b'"');
    is_blank | (byte >= b' ') & !is_named & (byte != 239)
}

/// Returns `true` if each byte of `bytes` is written to XML unchanged, as `is_unescaped` defines
/// it.
///
/// `attribute` is `true` for an attribute, and `false` for content.
fn are_unescaped(attribute: bool, bytes: &[u8; 32]) -> bool
    ensures { result ≡ list_all
        (λ b. bytes_eq (escaped attribute b) (b ∷ []) && not (b == 239)) bytes.now }
{
    let mut all = true;
    for byte in bytes {
        all = all & is_unescaped(attribute, *byte);
    }
    all
}

/// Returns the number of leading bytes of `text` that are written to XML unchanged.
///
/// The bytes are tested one by one, by `is_unescaped`. `attribute` is `true` for an attribute, and
/// `false` for content.
fn count_unescaped_bytes(attribute: bool, text: &[u8]) -> usize
    ensures length { result ≡ prefix_len
        (λ b. bytes_eq (escaped attribute b) (b ∷ []) && not (b == 239)) text.now }
    ensures within { result ≤ length text.now }
{
    text.iter()
        .take_while(|byte| is_unescaped(attribute, **byte))
        .count()
}

/// Returns the number of leading bytes of `text` that are written to XML unchanged.
///
/// `attribute` is `true` for an attribute, and `false` for content. Chunks of 32 unchanged bytes
/// are tested at once, and the bytes after the last such chunk one by one. `is_unescaped` decides
/// for each byte.
fn unescaped_length(attribute: bool, text: &[u8]) -> usize
    ensures { result ≡ prefix_len
        (λ b. bytes_eq (escaped attribute b) (b ∷ []) && not (b == 239)) text.now }
{
    let mut length = 0;
    let mut rest = text;
    while let Some((chunk, after)) = rest.split_first_chunk::<32>() {
        if !are_unescaped(attribute, chunk) {
            break;
        }
        length += 32;
        rest = after;
    }
    length + count_unescaped_bytes(attribute, rest)
}

/// Appends `text` to `escaped`, escaped for an XML attribute if `attribute` is `true`, and
/// otherwise for the content of an element.
///
/// Consecutive bytes that need no escape are copied at once.
fn push_escaped_text(escaped: &mut Text, attribute: bool, text: &str) -> Result<(), NoMemory>
    ensures { OnOk result (escaped.new ≡ escaped.old ++ escaped_text attribute (chars text.now)) }
{
    let mut rest = text;
    while !rest.is_empty() {
        let (run, after) = rest.split_at(unescaped_length(attribute, rest.as_bytes()));
        escaped.push_str(run)?;
        let mut characters = after.chars();
        let Some(c) = characters.next() else {
            return Ok(());
        };
        push_escaped_char(escaped, attribute, c)?;
        rest = characters.as_str();
    }
    Ok(())
}

/// Returns `text`, escaped for an XML attribute.
fn escape_attribute(alloc: Global, text: &Text) -> Result<Text, NoMemory>
    ensures { IfOk result (λ t. t ≡ escaped_text true text.now) }
{
    let mut escaped = Text::new(alloc);
    push_escaped_text(&mut escaped, true, text.as_str())?;
    Ok(escaped)
}

/// Appends the output `bytes` to `escaped`, escaped for the content of an XML element.
///
/// Bytes that are not UTF-8 become U+FFFD. An output in UTF-8 is not copied before it is escaped.
fn push_escaped_output(alloc: Global, escaped: &mut Text, bytes: &[u8]) -> Result<(), NoMemory>
    ensures { OnOk result (escaped.new ≡ escaped.old ++ escaped_text false (lossy bytes.now)) }
{
    match str::from_utf8(bytes) {
        Ok(text) => push_escaped_text(escaped, false, text),
        Err(_fault) => {
            let text = lossy(alloc, bytes)?;
            push_escaped_text(escaped, false, text.as_str())
        }
    }
}

/// Joins `body` and `cleanup`, the outputs of a body and of its cleanup, and escapes them for the
/// content of an XML element.
fn escape_outputs(alloc: Global, body: &Bytes, cleanup: &Bytes) -> Result<Text, NoMemory>
    ensures { IfOk result (λ t. t ≡ escaped_text false (lossy body.now ++ lossy cleanup.now)) }
{
    let mut escaped = Text::new(alloc);
    push_escaped_output(alloc, &mut escaped, body.as_slice())?;
    push_escaped_output(alloc, &mut escaped, cleanup.as_slice())?;
    Ok(escaped)
}

/// Returns the texts of `entry` in the JUnit report, escaped for XML.
///
/// `body` and `cleanup` are the outputs of its body and of its cleanup. The outputs in `entry`
/// itself are not used.
///
/// # Errors
///
/// - `NoMemory`: an allocation fails.
pub fn create_case_texts(
    alloc: Global,
    entry: &Entry,
    body: &Output,
    cleanup: &Output,
) -> Result<CaseTexts, NoMemory>
    ensures { IfOk result (λ t. t ≡ case_texts (with_outputs entry.now body.now cleanup.now)) }
{
    let mut reason = Text::new(alloc);
    entry.verdict.write_reason(&mut reason)?;
    Ok(CaseTexts {
        program: escape_attribute(alloc, &entry.program)?,
        case_name: escape_attribute(alloc, &entry.case_name)?,
        reason: escape_attribute(alloc, &reason)?,
        out: escape_outputs(alloc, &body.out, &cleanup.out)?,
        err: escape_outputs(alloc, &body.err, &cleanup.err)?,
    })
}
