//! The test cases of programs, and their selection by filters.

pub(crate) mod choosing;
pub(crate) mod collecting;
pub(crate) mod offering;

use crate::Settings;
use kt_atflist::CaseDef;
use kt_base::{Interface, Items, Text};

/// A test case that a command may select, with the data of its program.
pub struct Candidate {
    /// The interface of the test program: ATF, TAP or plain.
    pub interface: Interface,
    /// The path of the test program, relative to the root Kyuafile's directory.
    pub path: Text,
    /// The name of the program's test suite.
    pub suite: Text,
    /// The name of the case, and its properties, which include the properties of its program. If
    /// the program's list of cases has an error, one candidate represents the list, and this field
    /// has the error.
    pub case: CaseDef,
}

/// A manual impl instead of `#[derive(Drop)]`, so that the prover handles each drop as one call.
impl Drop for Candidate {
    fn drop(self) {
        let Candidate {
            interface: _,
            path: _,
            suite: _,
            case: _,
        } = self;
    }
}

impl Candidate {
    ghost use Rattle.std.specs.Prelude.{◌≡◌};

    /// Returns the path of the test program and the name of the case.
    pub(crate) fn into_names(self) -> (Text, Text)
        ensures path { result.0 ≡ self.path }
        ensures name { result.1 ≡ self.case.name }
    {
        let Candidate {
            interface: _,
            path,
            suite: _,
            case,
        } = self;
        (path, case.name)
    }
}

/// A selection of test cases by the filters of a command.
#[derive(Drop)]
pub struct CaseSelection {
    /// The selected cases, in the order of their programs and of the cases of each program.
    pub cases: Items<Candidate>,
    /// The indexes of the filters that match no case, in the command's list of filters. They are
    /// ascending.
    pub unmatched: Items<usize>,
}

/// A selection of test cases, together with the settings of its command.
#[derive(Drop)]
pub struct CommandSelection {
    /// The settings of the command.
    pub settings: Settings,
    /// The selected cases, and the filters that match no case.
    pub chosen: CaseSelection,
}
