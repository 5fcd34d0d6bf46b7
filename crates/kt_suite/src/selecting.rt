ghost use Rattle.std.specs.Prelude.{◌≡◌, ◌↔◌, ◌<◌, length, Err, Some, IfOk};
ghost use Rattle.std.specs.List.{filter};
ghost use Rattle.kt_suite.specs.declared.selecting.SelectFault.TheVariants.{TooMany};
ghost use Rattle.kt_suite.specs.Inner.Steps.{all_positions, first_match, is_match, is_miss};
ghost use Rattle.kt_suite.specs.Selecting.{item_limit, matches_item, is_selected, selected_positions, unmatched_positions};
ghost use Rattle.kt_suite.specs.declared.selecting.SelectFault.TheVariants as fault;

use crate::Filter;
use kt_base::{NoMemory, OUT_OF_MEMORY, Text};
use std::alloc::Global;
use thiserror::Error;

/// Errors returned by [`select`].
///
/// `Display` prints the message (this profile).
#[derive(Clone, Copy, Debug, Error)]
#[error("{}", self.message())]
pub enum SelectFault {
    /// An allocation failed.
    NoMemory(NoMemory),
    /// There are more than 100,000 test cases to select from.
    TooMany,
}

impl SelectFault {
    ghost use Rattle.kt_suite.specs.FaultMessages.{select_message};

    /// Returns the message of the error, which `Display` prints.
    pub fn message(&self) -> &'static str
        ensures { result.now ≡ select_message self.now }
    {
        match self {
            SelectFault::NoMemory(_) => OUT_OF_MEMORY,
            SelectFault::TooMany => "too many cases",
        }
    }
}

impl From<NoMemory> for SelectFault {
    ghost from_gives = { λ refusal e. e ≡ fault.NoMemory refusal };

    fn from(refusal: NoMemory) -> SelectFault {
        SelectFault::NoMemory(refusal)
    }
}

/// A test case that filters may select: the path of its program, and its name.
#[derive(Drop)]
pub struct Item {
    /// The path of the test program that has the case, relative to the directory of the root
    /// Kyuafile.
    pub path: Text,
    /// The name of the test case, without its program.
    pub case_name: Text,
}

/// A result of [`select`]: the positions of the selected items and of the unmatched filters.
#[derive(Drop)]
pub struct Selection {
    /// The positions of the selected items in the list of items, ascending, from 0.
    pub cases: Vec<usize>,
    /// The positions of the unmatched filters in the list of filters, ascending, from 0. An
    /// unmatched filter matches no item.
    pub unmatched: Vec<usize>,
}

/// The maximum number of test cases that [`select`] accepts.
const ITEM_LIMIT: usize = 100_000;

/// Returns `true` if `filter` matches the test case `item`.
fn matches_item(item: &Item, filter: &Filter) -> bool
    ensures { result ≡ matches_item item.now filter.now }
{
    filter.matches(&item.path, &item.case_name)
}

/// Returns the position of the first filter in `filters` that matches `item`, or `None` if no
/// filter matches it.
fn first_match(filters: &[Filter], item: &Item) -> Option<usize>
    ensures { result ≡ first_match filters.now item.now }
{
    filters.iter().position(|filter| matches_item(item, filter))
}

/// Returns `true` if the filter at the position `place` in `filters` matches `item`.
///
/// Returns `false` if there is no filter at this position.
fn is_match(filters: &[Filter], item: &Item, place: usize) -> bool
    ensures { result ≡ is_match filters.now item.now place }
{
    match filters.get(place) {
        None => false,
        Some(filter) => matches_item(item, filter),
    }
}

/// Returns `true` if the filter at the position `place` in `filters` does not match `item`.
///
/// Returns `true` also if there is no filter at this position. `first` is the position of the first
/// filter that matches `item`, so earlier filters are not compared again.
fn is_miss(filters: &[Filter], item: &Item, first: usize, place: usize) -> bool
    ensures { first_match filters.now item.now ≡ Some first
        → result ≡ is_miss filters.now item.now place }
{
    if place < first {
        return true;
    }
    place != first && !is_match(filters, item, place)
}

/// Removes the positions of the filters that match `item` from the positions `unmatched`.
///
/// The positions are indices of `filters`. `first` is the position of the first filter that matches
/// `item`.
fn remove_matches(unmatched: &mut Vec<usize>, filters: &[Filter], item: &Item, first: usize)
    requires { first_match filters.now item.now ≡ Some first }
    ensures { unmatched.new.items ≡ filter (is_miss filters.now item.now) unmatched.old.items }
{
    unmatched.retain(|place| is_miss(filters, item, first, *place));
}

/// Compares `item` with `filters`, and returns `true` if the filters select it.
///
/// Removes the positions of the filters that match `item` from `unmatched`. Without filters, each
/// item is selected. Each filter is compared with `item` at most once.
fn select_item(filters: &[Filter], item: &Item, unmatched: &mut Vec<usize>) -> bool
    ensures selected { result ≡ is_selected filters.now item.now }
    ensures unmatched { unmatched.new.items ≡ filter (is_miss filters.now item.now)
        unmatched.old.items }
{
    match first_match(filters, item) {
        None => filters.is_empty(),
        Some(first) => {
            remove_matches(unmatched, filters, item, first);
            true
        }
    }
}

/// Returns the positions of all filters in `filters`, ascending, from 0.
fn all_positions(alloc: Global, filters: &[Filter]) -> Result<Vec<usize>, NoMemory>
    ensures { IfOk result (λ all. all.items ≡ all_positions filters.now) }
{
    let mut all = Vec::new(alloc);
    let mut place = 0;
    for _filter in filters {
        all.push(place)?;
        place += 1;
    }
    Ok(all)
}

/// Returns the positions of the items that `filters` select, and of the filters that match no item.
///
/// Reads `items` once. A filter counts as unmatched until it matches an item.
#[tactic(auto, using(crate::proofs::Picking::unmatched_of_all))]
fn select_items(alloc: Global, items: &[Item], filters: &[Filter]) -> Result<Selection, NoMemory>
    ensures cases { IfOk result (λ s. s.cases.items ≡ selected_positions items.now filters.now) }
    ensures unmatched { IfOk result (λ s. s.unmatched.items
        ≡ unmatched_positions items.now filters.now) }
{
    let mut cases = Vec::new(alloc);
    let mut unmatched = all_positions(alloc, filters)?;
    let mut place = 0;
    for item in items {
        if select_item(filters, item, &mut unmatched) {
            cases.push(place)?;
        }
        place += 1;
    }
    Ok(Selection { cases, unmatched })
}

/// Returns the positions of the items that `filters` select, and of the filters that match no item.
///
/// An item is selected if a filter matches it. Without filters, each item is selected. Several
/// filters may match the same item.
///
/// # Errors
///
/// - `TooMany`: there are more than 100,000 items.
/// - `NoMemory`: an allocation fails.
pub fn select(alloc: Global, items: &[Item], filters: &[Filter]) -> Result<Selection, SelectFault>
    ensures cases { IfOk result (λ s. s.cases.items ≡ selected_positions items.now filters.now) }
    ensures unmatched { IfOk result (λ s. s.unmatched.items
        ≡ unmatched_positions items.now filters.now) }

    // `TooMany` depends only on the number of items.
    ensures too_many { (result ≡ Err TooMany) ↔ (item_limit < length items.now) }
{
    if items.len() > ITEM_LIMIT {
        return Err(SelectFault::TooMany);
    }
    let selection = select_items(alloc, items, filters)?;
    Ok(selection)
}
