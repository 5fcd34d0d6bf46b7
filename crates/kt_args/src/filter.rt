ghost use Rattle.std.specs.Prelude.{◌≡◌, map, IfOk};
ghost use Rattle.kt_args.specs.Common.{ParsesKinds, comma_elements, default_kinds, kind_of_element, kinds_of_elements};

use crate::CommandFault;
use kt_base::{Items, Kind, NoMemory, value_of_keyword_bytes};
use std::alloc::Global;

/// The names of the kinds of verdicts in the value of `--results-filter`.
const KIND_NAMES: [(&str, Kind); 5] = [
    ("passed", Kind::Passed),
    ("skipped", Kind::Skipped),
    ("xfail", Kind::ExpectedFailure),
    ("broken", Kind::Broken),
    ("failed", Kind::Failed),
];

/// Returns the kind of verdict that `word` names, or `None` if it does not name a kind.
///
/// `word` is an element of the value of `--results-filter`.
fn parse_kind(word: &[u8]) -> Option<Kind>
    ensures { result ≡ kind_of_element word.now }
{
    value_of_keyword_bytes(word, &KIND_NAMES)
}

/// Splits a results filter at each comma, and returns the elements.
fn split_at_commas(alloc: Global, filter: &[u8]) -> Result<Vec<&[u8]>, NoMemory>
    ensures { IfOk result (λ elements.
        map (λ element. element.now) elements.items ≡ comma_elements filter.now) }
{
    Ok(filter.split(|c| *c == b',').collect(alloc)?)
}

/// Parses `filter` as a results filter: one or more kinds of verdicts, separated by commas.
///
/// Returns the kinds in the order of the filter. A kind may be given several times.
///
/// # Errors
///
/// - `BadKind`: an element does not name a kind. An empty filter has one empty element.
/// - `NoMemory`: an allocation fails.
pub fn parse_kinds(alloc: Global, filter: &[u8]) -> Result<Items<Kind>, CommandFault>
    ensures { ParsesKinds (kinds_of_elements (comma_elements filter.now)) result }
{
    let elements = split_at_commas(alloc, filter)?;
    let mut kinds = Items::new(alloc);
    for element in &elements {
        let Some(kind) = parse_kind(*element) else {
            return Err(CommandFault::BadKind);
        };
        kinds.push(kind)?;
    }
    Ok(kinds)
}

/// Returns the kinds of verdicts that `report` prints without a filter: all but `Passed`.
///
/// # Errors
///
/// - `NoMemory`: an allocation fails.
pub fn default_kinds(alloc: Global) -> Result<Items<Kind>, NoMemory>
    ensures { IfOk result (λ kinds. kinds ≡ default_kinds) }
{
    let mut kinds = Items::new(alloc);
    kinds.push(Kind::Skipped)?;
    kinds.push(Kind::ExpectedFailure)?;
    kinds.push(Kind::Broken)?;
    kinds.push(Kind::Failed)?;
    Ok(kinds)
}
