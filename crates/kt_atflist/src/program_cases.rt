//! The test cases of a program.

ghost use Rattle.std.specs.Prelude.{◌≡◌, ◌∷◌, ◌++◌, [], List, map, chars, Some, None, IfOk, OnOk, IsSome, ℕ, Option, Result};
ghost use Rattle.kt_atflist.specs.Common.{Atf, Variable, overlaid_case, main_case, list_case, AreCases, Interface, IsResult, CaseDef, ListFault, Listing};

use crate::listed_cases::listed_cases;
use crate::{CaseDef, Listing};
use kt_base::{Interface, Items, NoMemory, Reason, Text};
use kt_metadata::Props;
use std::alloc::Global;

/// The name of the only case of a TAP or plain program.
const MAIN_CASE_NAME: &str = "main";

/// The name of the only case of an ATF program whose list of test cases can't be used.
const LIST_CASE_NAME: &str = "__test_cases_list__";

/// Appends `case` to `cases`, with the properties `props` of its program added.
///
/// A property of the case replaces the same property of the program.
fn push_overlay(cases: &mut Items<CaseDef>, props: &Props, case: CaseDef) -> Result<(), NoMemory>
    ensures { OnOk result (cases.new ≡ cases.old ++ overlaid_case props.now case ∷ []) }
{
    let CaseDef {
        name,
        props: own,
        fault,
    } = case;
    let props = Props::overlay(props, &own)?;
    cases.push(CaseDef { name, props, fault })
}

/// Adds the properties `props` of the program to each case in `found`.
///
/// A property of a case replaces the same property of the program.
fn overlay_cases(
    alloc: Global,
    props: &Props,
    found: Items<CaseDef>,
) -> Result<Items<CaseDef>, NoMemory>
    ensures { IfOk result (λ cases. cases ≡ map (overlaid_case props.now) found) }
{
    let mut cases = Items::new(alloc);
    for case in found.into_vec() {
        push_overlay(&mut cases, props, case)?;
    }
    Ok(cases)
}

/// Adds the properties `props` of the program to each case in `found`.
///
/// The cases share one reference-counted copy of `props`. A property of a case replaces the same
/// property of the program.
fn share_and_overlay(
    alloc: Global,
    props: &Props,
    found: Items<CaseDef>,
) -> Result<Items<CaseDef>, NoMemory>
    ensures { IfOk result (λ cases. cases ≡ map (overlaid_case props.now) found) }
{
    let shared = props.to_shared()?;
    overlay_cases(alloc, &shared, found)
}

/// Creates a list of one test case, with the name `name` and the properties `props` of its program.
///
/// `fault` is the reason why the program's list of test cases can't be used, or `None`.
fn single_case_list(
    alloc: Global,
    name: &str,
    props: &Props,
    fault: Option<Reason>,
) -> Result<Items<CaseDef>, NoMemory>
    ensures { IfOk result (λ cases. cases ≡ overlaid_case props.now
        (record { name = chars name.now; props = []; fault = fault }) ∷ []) }
{
    let case = CaseDef {
        name: Text::from_str(alloc, name)?,
        props: Props::new(alloc),
        fault,
    };
    let mut cases = Items::new(alloc);
    push_overlay(&mut cases, props, case)?;
    Ok(cases)
}

/// Returns the test cases of an ATF program with the properties `props` and the listing `listing`.
///
/// `listing` is the result of running the program to list its cases. If the listing can't be used,
/// the program has the one case `__test_cases_list__`.
fn atf_program_cases(
    alloc: Global,
    props: &Props,
    listing: &Listing,
) -> Result<Items<CaseDef>, NoMemory>
    ensures { IfOk result (λ cases. AreCases props.now Atf (Some listing.now) cases) }
{
    let found = listed_cases(alloc, listing)?;
    match found {
        Ok(found) => share_and_overlay(alloc, props, found),
        Err(reason) => single_case_list(alloc, LIST_CASE_NAME, props, Some(reason)),
    }
}

/// Returns the test cases of a program with the properties `props`, in order.
///
/// A TAP or plain program has the one case `main`. An ATF program has the cases of `listing`, the
/// result of running the program to list them, which must be present. If the listing can't be used,
/// the program has the one case `__test_cases_list__`, whose `fault` is the reason. Each case has
/// the properties of its program. A property of the case replaces the same property of the program.
///
/// # Errors
///
/// - `NoMemory`: an allocation fails.
pub fn cases(
    alloc: Global,
    interface: Interface,
    props: &Props,
    listing: &Option<Listing>,
) -> Result<Items<CaseDef>, NoMemory>
    requires { interface ≡ Atf → IsSome listing.now }
    ensures { IfOk result (λ cases. AreCases props.now interface listing.now cases) }
{
    match interface {
        Interface::Tap | Interface::Plain => single_case_list(alloc, MAIN_CASE_NAME, props, None),
        Interface::Atf => match listing {
            None => unreachable!(),
            Some(listing) => atf_program_cases(alloc, props, listing),
        },
    }
}

/// Theorem: a text has at most one result when it is parsed as a list of test cases.
///
/// The result is the cases of the list, or the first fault of the text. A program with given
/// properties, interface and listing has at most one list of cases.
pub fn theorem_of_one_case_list()
    ensures text { (text : List ℕ) → (first : Result (List CaseDef) ListFault)
        → (second : Result (List CaseDef) ListFault) → IsResult text first → IsResult text second
        → first ≡ second }
    ensures program { (props : List Variable) → (interface : Interface) → (listing : Option Listing)
        → (first : List CaseDef) → (second : List CaseDef) → AreCases props interface listing first
        → AreCases props interface listing second → first ≡ second }
{}
