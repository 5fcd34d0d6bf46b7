ghost use Rattle.std.specs.Prelude.{◌≡◌, ◌⊎◌, IfOk, IsErrAnd, length};
ghost use Rattle.kt_plan.specs.Common.{filter_index_of, FindsOverlap, filter_of, filters_of, names_one_case, is_case_missing, ParsesFilters, IsNoMemoryError};

use crate::SelectionError;
use kt_args::FilterRule;
use kt_base::{Items, NoMemory, Text};
use kt_suite::{Filter, FilterFault, check_disjoint};
use std::alloc::Global;

/// Parses the argument `word` as a filter.
///
/// The inner result is the error of the command if the argument is not a filter. The outer result
/// is an error if an allocation fails.
fn parse_filter(alloc: Global, word: &Text) -> Result<Result<Filter, SelectionError>, NoMemory>
    ensures { IfOk result (λ outcome. outcome ≡ filter_of word.now) }
{
    match Filter::parse(alloc, word) {
        Ok(filter) => Ok(Ok(filter)),
        Err(FilterFault::NoMemory(refusal)) => Err(refusal),
        Err(fault) => Ok(Err(SelectionError::Filter(word.copy()?, fault))),
    }
}

/// Parses the arguments `words` as filters, in order.
///
/// The inner result has the filters, or the error of the first argument that is not a filter. The
/// outer result is an error only if an allocation fails.
fn parse_filters(
    alloc: Global,
    words: &[Text],
) -> Result<Result<Items<Filter>, SelectionError>, NoMemory>
    ensures { IfOk result (λ outcome. outcome ≡ filters_of words.now) }
{
    let mut filters = Items::new(alloc);
    for word in words {
        match parse_filter(alloc, word)? {
            Ok(filter) => filters.push(filter)?,
            Err(fault) => return Ok(Err(fault)),
        }
    }
    Ok(Ok(filters))
}

/// Returns the index of the filter that `fault` is about, in the command's list of filters. Returns
/// 0 if `fault` has no index.
fn fault_position(fault: FilterFault) -> usize
    ensures { result ≡ filter_index_of fault }
{
    match fault {
        FilterFault::Repeated(position) | FilterFault::NotDisjoint(position) => position,
        _ => 0,
    }
}

/// Returns the error of the first of `filters` that may match the same case as an earlier filter.
/// Returns `None` if there is no such filter.
///
/// `words` are the arguments from which `filters` were parsed.
fn find_overlap(words: &[Text], filters: &[Filter]) -> Result<Option<SelectionError>, NoMemory>
    requires { length words.now ≡ length filters.now }
    ensures { IfOk result (λ found. FindsOverlap words.now filters.now found) }
{
    match check_disjoint(filters) {
        Ok(()) => Ok(None),
        Err(fault) => {
            let word = words[fault_position(fault)].copy()?;
            Ok(Some(SelectionError::Filter(word, fault)))
        }
    }
}

/// Returns `true` if `filters` has exactly one filter and this filter names a case.
fn names_one_case(filters: &[Filter]) -> bool
    ensures { result ≡ names_one_case filters.now }
{
    match filters {
        [filter] => filter.case_name.is_some(),
        _ => false,
    }
}

/// Returns `true` if `rule` requires a single filter that names a case, and `filters` doesn't meet
/// `rule`. The list then has no filter, more than one filter, or a filter that names no case.
fn is_case_missing(rule: FilterRule, filters: &[Filter]) -> bool
    ensures { result ≡ is_case_missing rule filters.now }
{
    match rule {
        FilterRule::AnyFilters => false,
        FilterRule::OneCase => !names_one_case(filters),
    }
}

/// Parses the arguments `words` as the filters of a command.
///
/// `rule` states which filters the command accepts.
///
/// # Errors
///
/// The first error is returned, in this order:
///
/// - `Filter`: an argument is not a filter.
/// - `Filter`: a filter may match the same case as an earlier filter.
/// - `NeedsCase`: `rule` is `OneCase`, and there is no filter, more than one filter, or a filter
///   that names no case.
///
/// At any step:
///
/// - `NoMemory`: an allocation fails.
pub fn read_filters(
    alloc: Global,
    rule: FilterRule,
    words: &[Text],
) -> Result<Items<Filter>, SelectionError>
    ensures { IsErrAnd result IsNoMemoryError ⊎ ParsesFilters rule words.now result }
{
    let filters = parse_filters(alloc, words)??;
    if let Some(fault) = find_overlap(words, filters.as_slice())? {
        return Err(fault);
    }
    if is_case_missing(rule, filters.as_slice()) {
        return Err(SelectionError::NeedsCase);
    }
    Ok(filters)
}
