ghost use Rattle.std.specs.Prelude.{◌≡◌, ◌↔◌, IsTrue, IfOk, OnOk};
ghost use Rattle.kt_suite.specs.Inner.Steps.{path_and_component, with_component};
ghost use Rattle.kt_suite.specs.Filters.{is_kept_component, normalized_path, case_fault, parts_fault};
ghost use Rattle.kt_suite.specs.declared.filter.FilterFault.TheVariants as fault;

use crate::within::is_within;
use kt_base::{NoMemory, OUT_OF_MEMORY, Text};
use std::alloc::Global;
use thiserror::Error;

/// Errors returned by [`Filter::parse`] and [`check_disjoint`](crate::check_disjoint).
///
/// The field of `Repeated` and of `NotDisjoint` is the position of the filter with the error in the
/// list of filters, from 0. `Display` prints the message without the filter (this profile).
#[derive(Clone, Copy, Debug, Error)]
#[error("{}", self.message())]
pub enum FilterFault {
    /// An allocation failed.
    NoMemory(NoMemory),
    /// The filter has no path, or its path is relative and each component is empty or `.`.
    Empty,
    /// The filter begins with a slash.
    Absolute,
    /// Nothing follows the first colon of the filter.
    EmptyCase,
    /// The filter at this position is equal to an earlier filter.
    Repeated(usize),
    /// The filter at this position differs from an earlier filter, but both match some case.
    NotDisjoint(usize),
}

impl FilterFault {
    ghost use Rattle.kt_suite.specs.FaultMessages.{filter_message};

    /// Returns the message of the error, which `Display` prints.
    pub fn message(&self) -> &'static str
        ensures { result.now ≡ filter_message self.now }
    {
        match self {
            FilterFault::NoMemory(_) => OUT_OF_MEMORY,
            FilterFault::Empty => "empty",
            FilterFault::Absolute => "absolute",
            FilterFault::EmptyCase => "empty case",
            FilterFault::Repeated(_) => "repeated",
            FilterFault::NotDisjoint(_) => "not disjoint",
        }
    }
}

impl From<NoMemory> for FilterFault {
    ghost from_gives = { λ refusal e. e ≡ fault.NoMemory refusal };

    fn from(refusal: NoMemory) -> FilterFault {
        FilterFault::NoMemory(refusal)
    }
}

/// A filter for test cases: all cases of a program or below a directory, or one case (kyua(1)).
#[derive(PartialEq, Drop)]
pub struct Filter {
    /// The path of a program or a directory, relative to the directory of the root Kyuafile.
    ///
    /// No component of the path is empty or `.` in a filter that [`Filter::parse`] returns.
    pub program: Text,
    /// The name of the case, or `None` if the filter matches all cases of the program or directory.
    pub case_name: Option<Text>,
}

impl Filter {
    ghost use Rattle.kt_suite.specs.Common.{filter_meaning, IsFilterResult, matches, MayMatch};

    /// Parses `text` as a filter: `PROGRAM` or `PROGRAM:CASE` (kyua(1)).
    ///
    /// The case follows the first colon. Components of `PROGRAM` that are empty or `.` are dropped.
    ///
    /// # Errors
    ///
    /// - `Empty`: nothing precedes the first colon, or the path is relative and each component is
    ///   empty or `.`.
    /// - `Absolute`: `text` begins with a slash.
    /// - `EmptyCase`: nothing follows the first colon.
    /// - `NoMemory`: an allocation fails.
    pub fn parse(alloc: Global, text: &Text) -> Result<Filter, FilterFault>
        ensures { IsFilterResult result (filter_meaning text.now) }
    {
        let (path, case_name) = text.split_at_first(':')?;
        if let Some(fault) = parts_fault(&path, &case_name) {
            return Err(fault);
        }
        let program = normalized_path(alloc, &path)?;
        if program.is_empty() {
            return Err(FilterFault::Empty);
        }
        Ok(Filter { program, case_name })
    }

    /// Returns `true` if the filter matches the case `case_name` of the program at `path`.
    ///
    /// Allocates nothing.
    pub fn matches(&self, path: &Text, case_name: &Text) -> bool
        ensures { result ≡ matches self.now path.now case_name.now }
    {
        match &self.case_name {
            None => is_within(&self.program, path),
            Some(own) => *path == self.program && *case_name == *own,
        }
    }

    /// Returns `true` if the program at `path` could have a case that the filter matches.
    ///
    /// Allocates nothing.
    pub fn may_match(&self, path: &Text) -> bool
        ensures { IsTrue result ↔ MayMatch self.now path.now }
    {
        match &self.case_name {
            None => is_within(&self.program, path),
            Some(_) => *path == self.program,
        }
    }
}

/// Returns `EmptyCase` if `case_name` is an empty name, otherwise `None`.
fn case_fault(case_name: &Option<Text>) -> Option<FilterFault>
    ensures { result ≡ case_fault case_name.now }
{
    match case_name {
        Some(name) if name.is_empty() => Some(FilterFault::EmptyCase),
        _ => None,
    }
}

/// Returns the first error of a filter with the path `path` and the case `case_name`, else `None`.
///
/// The errors are an empty path, an absolute path, and an empty name of the case, in this order.
fn parts_fault(path: &Text, case_name: &Option<Text>) -> Option<FilterFault>
    ensures { result ≡ parts_fault path.now case_name.now }
{
    match path.as_str().chars().next() {
        None => Some(FilterFault::Empty),
        Some('/') => Some(FilterFault::Absolute),
        Some(_) => case_fault(case_name),
    }
}

/// Returns `true` if the path component `component` is neither empty nor `.`.
#[tactic(auto, unfolding(crate::proofs::Common::chars))]
fn is_kept_component(component: &Text) -> bool
    ensures { result ≡ is_kept_component component.now }
{
    !component.is_empty() && !component.is_equal_to(".")
}

/// Appends `component` to `path`, after a slash unless `path` is empty.
fn push_component(path: &mut Text, component: &Text) -> Result<(), NoMemory>
    ensures { OnOk result (path.new ≡ path_and_component path.old component.now) }
{
    if path.is_empty() {
        path.push_str(component.as_str())?;
        return Ok(());
    }
    path.push('/')?;
    path.push_str(component.as_str())?;
    Ok(())
}

/// Appends `component` to `path`, unless `component` is empty or `.`.
///
/// A slash separates the component from `path`, unless `path` is empty.
fn push_normalized(path: &mut Text, component: &Text) -> Result<(), NoMemory>
    ensures { OnOk result (path.new ≡ with_component path.old component.now) }
{
    if is_kept_component(component) {
        push_component(path, component)?;
    }
    Ok(())
}

/// Returns `path` without components that are empty or `.`.
fn normalized_path(alloc: Global, path: &Text) -> Result<Text, NoMemory>
    ensures { IfOk result (λ plain. plain ≡ normalized_path path.now) }
{
    let components = path.split('/')?;
    let mut plain = Text::new(alloc);
    for component in components.as_slice() {
        push_normalized(&mut plain, component)?;
    }
    Ok(plain)
}
