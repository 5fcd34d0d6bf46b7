ghost use Rattle.std.specs.Prelude.{◌≡◌, ◌↔◌, List, ℕ, IfErr, IsTrue, OnOk, option_copied, find};
ghost use Rattle.kt_suite.specs.Common.{is_within, IsWithin, is_same_filter, covers, overlaps, ShareCase, overlap_fault, IsDisjoint, IsFirstFault};
ghost use Rattle.kt_suite.specs.declared.filter.Filter.{Filter as OneFilter};

use crate::within::is_within;
use crate::{Filter, FilterFault};

/// Returns `true` if `filter` matches each case that `other` matches.
fn covers(filter: &Filter, other: &Filter) -> bool
    ensures { result ≡ covers filter.now other.now }
{
    match &filter.case_name {
        None => is_within(&filter.program, &other.program),
        Some(_) => *filter == *other,
    }
}

/// Returns `true` if there is a test case that both `filter` and `other` match.
///
/// Such a case exists if and only if one of the two filters matches each case that the other filter
/// matches.
fn overlaps(filter: &Filter, other: &Filter) -> bool
    ensures { result ≡ overlaps filter.now other.now }
{
    covers(filter, other) || covers(other, filter)
}

/// Returns the first filter in `earlier` that overlaps with `filter`, or `None` if there is no such
/// filter.
///
/// Two filters overlap if both match some test case.
fn first_overlap<'a>(filter: &Filter, earlier: &'a [Filter]) -> Option<&'a Filter>
    ensures { option_copied result ≡ find (overlaps filter.now) earlier.now }
{
    earlier.iter().find(|other| overlaps(filter, *other))
}

/// Returns the error of the filter at `position` in `filters`, or `None` if it has no error.
///
/// A filter has an error if it overlaps with an earlier filter: both match some test case.
fn overlap_fault(filters: &[Filter], position: usize) -> Option<FilterFault>
    ensures { result ≡ overlap_fault filters.now position }
{
    let filter = filters.get(position)?;
    let earlier = first_overlap(filter, &filters[..position])?;
    if *filter == *earlier {
        return Some(FilterFault::Repeated(position));
    }
    Some(FilterFault::NotDisjoint(position))
}

/// Checks that no two of the filters `filters` match the same case.
///
/// Two filters overlap if both match some case. An error has the position of the first filter that
/// overlaps with an earlier one. Allocates nothing.
///
/// # Errors
///
/// - `Repeated`: the filter at this position is equal to the first earlier filter that overlaps
///   with it.
/// - `NotDisjoint`: the filter at this position is not equal to the first earlier filter that
///   overlaps with it.
pub fn check_disjoint(filters: &[Filter]) -> Result<(), FilterFault>
    ensures ok { OnOk result (IsDisjoint filters.now) }
    ensures first { IfErr result (IsFirstFault filters.now) }
{
    for position in 0..filters.len() {
        if let Some(fault) = overlap_fault(filters, position) {
            return Err(fault);
        }
    }
    Ok(())
}

/// Theorem: two filters match a common test case if and only if one of the filters matches each
/// case that the other filter matches.
///
/// A path is within a directory if and only if it is the directory, or begins with the directory
/// and a slash. Two filters are equal if and only if their paths and their cases are equal.
pub fn theorem_of_overlaps()
    ensures within { (directory path : List ℕ) → IsTrue (is_within directory path)
        ↔ IsWithin directory path }
    ensures same { (filter other : OneFilter)
        → IsTrue (is_same_filter filter other) ↔ (filter ≡ other) }
    ensures overlaps { (filter other : OneFilter)
        → IsTrue (overlaps filter other) ↔ ShareCase filter other }
{}
