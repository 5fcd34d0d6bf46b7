ghost use Rattle.std.specs.Prelude.{◌≡◌, ◌∷◌, ◌++◌, [], List, IfOk};
ghost use Rattle.kt_suite.specs.Calls.{key_named};
ghost use Rattle.kt_suite.specs.Meanings.{program_meaning};
ghost use Rattle.kt_suite.specs.Common.{Variable, last_values, props_with, with_props, table_with, definition, table_of, declared};

use crate::SuiteCause;
use crate::meaning::Meaning;
use crate::paths::has_directory_part;
use kt_base::{Interface, NoMemory, Text};
use kt_metadata::{PropFault, Props, is_kyuafile_property};
use kt_script::{Arg, Pair};
use std::alloc::Global;

/// A kind of key in the table of a call that registers a program.
#[derive(Clone, Copy)]
enum KeyKind {
    /// The key `name`, whose value is the name of the program.
    Name,
    /// The key `test_suite`, whose value is the test suite of the program.
    TestSuite,
    /// The name of a property that a Kyuafile may set.
    Property,
    /// A key that the table of a program may not have.
    Unknown,
}

/// Returns the kind of the key `name` in the table of a call that registers a program.
#[tactic(auto, unfolding(crate::proofs::Common::chars))]
fn key_kind(name: &Text) -> KeyKind
    ensures { result ≡ key_named name.now }
{
    if name.is_equal_to("name") {
        KeyKind::Name
    } else if name.is_equal_to("test_suite") {
        KeyKind::TestSuite
    } else if is_kyuafile_property(name) {
        KeyKind::Property
    } else {
        KeyKind::Unknown
    }
}

/// A table in a call that registers a program, with the last value of each key.
pub struct ProgramTable {
    /// The name of the program, which may be empty, or `None` if the table has no key `name`.
    pub name: Option<Text>,
    /// The test suite of the program, which may be empty, or `None` if the table has no key
    /// `test_suite`.
    pub suite: Option<Text>,
    /// The properties that the table sets for the program.
    pub props: Props,
}

/// A manual impl instead of `#[derive(Drop)]`, so that the prover handles each drop as one call.
impl Drop for ProgramTable {
    fn drop(self) {
        let ProgramTable {
            name: _,
            suite: _,
            props: _,
        } = self;
    }
}

impl ProgramTable {
    ghost use Rattle.kt_suite.specs.Meanings.{named_table_meaning};

    /// Returns the meaning of the table: the program that it declares, or the cause of its error.
    ///
    /// The program has the interface `interface`. `file` is the test suite that the file has set
    /// for programs without their own, if any.
    fn meaning(self, interface: Interface, file: &Option<Text>) -> Result<Meaning, NoMemory>
        ensures { IfOk result (λ meaning. meaning
            ≡ named_table_meaning interface file.now self.suite self.props self.name) }
    {
        let ProgramTable { name, suite, props } = self;
        let Some(name) = name else {
            return Ok(Meaning::Wrong(SuiteCause::BadValue));
        };
        if name.is_empty() {
            return Ok(Meaning::Wrong(SuiteCause::BadValue));
        }
        if has_directory_part(&name) {
            return Ok(Meaning::Wrong(SuiteCause::PathHasDirectory));
        }
        match (suite, file) {
            (Some(suite), _) => {
                if suite.is_empty() {
                    return Ok(Meaning::Wrong(SuiteCause::BadValue));
                }
                Ok(Meaning::Program(interface, name, suite, props))
            }
            (None, Some(suite)) => Ok(Meaning::Program(interface, name, suite.copy()?, props)),
            (None, None) => Ok(Meaning::Wrong(SuiteCause::NoSuite)),
        }
    }
}

/// Returns the table `found` with the property `name` set to `value`.
///
/// Returns the cause `BadValue` if the property does not accept `value`.
fn set_property(
    found: ProgramTable,
    name: &Text,
    value: &Text,
) -> Result<Result<ProgramTable, SuiteCause>, NoMemory>
    ensures { (before : List Variable) → found.props ≡ last_values before
        → IfOk result (λ next. next
        ≡ with_props found (props_with before (record { name = name.now; value = value.now }))) }
{
    let mut found = found;
    match found.props.set(name, value) {
        Err(PropFault::NoMemory(refusal)) => Err(refusal),
        Err(_fault) => Ok(Err(SuiteCause::BadValue)),
        Ok(()) => Ok(Ok(found)),
    }
}

/// Returns the table `found` with the key of `pair` set, or the cause of the error in `pair`.
///
/// The value of `pair` replaces an earlier value of the same key.
fn set_pair(
    alloc: Global,
    found: ProgramTable,
    pair: &Pair,
) -> Result<Result<ProgramTable, SuiteCause>, NoMemory>
    ensures { (before : List Variable) → found ≡ table_of before
        → IfOk result (λ next. next ≡ table_with before (definition pair.now)) }
{
    let mut found = found;
    let value = pair.value.text(alloc)?;
    match key_kind(&pair.name) {
        KeyKind::Unknown => Ok(Err(SuiteCause::UnknownProperty)),
        KeyKind::Name => {
            found.name = Some(value);
            Ok(Ok(found))
        }
        KeyKind::TestSuite => {
            found.suite = Some(value);
            Ok(Ok(found))
        }
        KeyKind::Property => set_property(found, &pair.name, &value),
    }
}

/// Creates the table of a program from the keys and values in `pairs`, or returns the cause of the
/// error in the first invalid pair.
fn build_table(alloc: Global, pairs: &[Pair]) -> Result<Result<ProgramTable, SuiteCause>, NoMemory>
    ensures { IfOk result (λ found. found ≡ declared pairs.now) }
{
    let mut found = ProgramTable {
        name: None,
        suite: None,
        props: Props::new(alloc),
    };
    for pair in pairs {
        match set_pair(alloc, found, pair)? {
            Ok(next) => found = next,
            Err(cause) => return Ok(Err(cause)),
        }
    }
    Ok(Ok(found))
}

/// Returns the meaning of a call that registers a program: the program, or the cause of the error.
///
/// `interface` is the interface of the program, and `arg` is the argument of the call. `file` is
/// the test suite that the file has set for programs without their own, if any.
///
/// # Errors
///
/// - `NoMemory`: an allocation fails.
pub fn program_call_meaning(
    alloc: Global,
    interface: Interface,
    file: &Option<Text>,
    arg: &Arg,
) -> Result<Meaning, NoMemory>
    ensures { IfOk result (λ found. found ≡ program_meaning interface file.now arg.now) }
{
    match arg {
        Arg::Value(_) => Ok(Meaning::Wrong(SuiteCause::BadValue)),
        Arg::Table(pairs) => match build_table(alloc, pairs.as_slice())? {
            Err(cause) => Ok(Meaning::Wrong(cause)),
            Ok(found) => found.meaning(interface, file),
        },
    }
}
