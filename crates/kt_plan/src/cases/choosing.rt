ghost use Rattle.std.specs.Prelude.{◌≡◌, ◌≤◌, ◌<◌, ◌+◌, ◌⊎◌, ◌∷◌, ◌++◌, List, length, map, IfOk, IfErr, OnOk};
ghost use Rattle.kt_plan.specs.Common.{Filter, item_limit, Candidate, item_of, selected_cases, selection_of, selected_indexes, IsNoMemoryError};
ghost use Rattle.kt_plan.specs.declared.selection_error.SelectionError.TheVariants as stop;

use crate::{Candidate, CaseSelection, SelectionError};
use kt_base::{Items, NoMemory};
use kt_suite::{Filter, Item, SelectFault, select};
use std::alloc::Global;

/// Creates an item for each of `candidates`, in order. An item is the part of a candidate that
/// filters match.
///
/// It has copies of the path of the program and of the name of the case.
fn create_items(alloc: Global, candidates: &[Candidate]) -> Result<Vec<Item>, NoMemory>
    ensures { IfOk result (λ items. items.items ≡ map item_of candidates.now) }
{
    let mut items = Vec::new(alloc);
    for candidate in candidates {
        let path = candidate.path.copy()?;
        let case_name = candidate.case.name.copy()?;
        items.push(Item { path, case_name })?;
    }
    Ok(items)
}

/// Appends `candidate` to `cases` if `place`, its index in the list of all candidates, is in
/// `places`.
///
/// `places` are the ascending indexes of the selected candidates, from `place` on. Returns `places`
/// without `place`.
fn push_if_selected<'a>(
    cases: &mut Items<Candidate>,
    candidate: Candidate,
    place: usize,
    places: &'a [usize],
) -> Result<&'a [usize], NoMemory>
    ensures { (filters : List Filter) → (rest : List Candidate)
        → places.now ≡ selected_indexes filters place (candidate ∷ rest)
        → IfOk result (λ after. (after.now ≡ selected_indexes filters (place + 1) rest)
        × (cases.new ++ selected_cases filters rest
        ≡ cases.old ++ selected_cases filters (candidate ∷ rest))) }
{
    match places.split_first() {
        Some((first, after)) if *first == place => {
            cases.push(candidate)?;
            Ok(after)
        }
        _ => Ok(places),
    }
}

/// Returns the candidates of `found` whose indexes are in `places`. The indexes must be ascending.
fn retain_selected(
    alloc: Global,
    found: Items<Candidate>,
    places: &[usize],
) -> Result<Items<Candidate>, NoMemory>
    requires { length found ≤ item_limit }
    ensures { (filters : List Filter) → places.now ≡ selected_indexes filters 0 found
        → IfOk result (λ cases. cases ≡ selected_cases filters found) }
{
    let mut cases = Items::new(alloc);
    let mut place = 0;
    let mut rest = places;
    for candidate in found.into_vec() {
        rest = push_if_selected(&mut cases, candidate, place, rest)?;
        place += 1;
    }
    Ok(cases)
}

/// Selects the cases of `found` that at least one of `filters` matches, or all cases if there are
/// no filters. Also returns the indexes of the filters that match no case.
///
/// # Errors
///
/// - `TooManyCases`: `found` has more than 100,000 cases.
/// - `NoMemory`: an allocation fails.
pub fn select_candidates(
    alloc: Global,
    filters: &[Filter],
    found: Items<Candidate>,
) -> Result<CaseSelection, SelectionError>
    ensures chosen { IfOk result (λ chosen. chosen ≡ selection_of filters.now found) }
    ensures few { OnOk result (length found ≤ item_limit) }
    ensures stopped { IfErr result (λ fault. IsNoMemoryError fault
        ⊎ ((fault ≡ stop.TooManyCases) × (item_limit < length found))) }
{
    let items = create_items(alloc, found.as_slice())?;
    match select(alloc, items.as_slice(), filters) {
        Err(SelectFault::NoMemory(refusal)) => Err(SelectionError::NoMemory(refusal)),
        Err(SelectFault::TooMany) => Err(SelectionError::TooManyCases),
        Ok(selection) => {
            let cases = retain_selected(alloc, found, selection.cases.as_slice())?;
            Ok(CaseSelection {
                cases,
                unmatched: Items::from_vec(selection.unmatched),
            })
        }
    }
}
