//! Values for the start of a child: paths, arguments and environment.

pub(crate) mod environment;
pub(crate) mod words;
pub(crate) mod workdir;

use crate::Paths;
use kt_base::{Interface, Items, Role, Text, Variables};
use kt_os::{Child, EnvPlan};

/// A purpose for which a test program is started (atf-test-program(1)).
#[derive(Clone, Copy)]
pub enum Want {
    /// The program lists its test cases.
    List,
    /// The program runs the body of a case.
    Body,
    /// The program runs the cleanup of a case.
    Cleanup,
}

/// A purpose of a child: what the test program does, the values for its arguments, and its timeout.
#[derive(Clone, Copy)]
pub(crate) struct ChildPurpose<'a> {
    /// The task of the program: to list its cases, or to run the body or the cleanup of a case.
    pub want: Want,
    /// The path of the program, relative to the root Kyuafile's directory.
    pub program: &'a Text,
    /// The configuration variables of the program's test suite.
    pub variables: &'a Variables,
    /// The name of the test case. It is empty if the program lists its cases.
    pub case_name: &'a Text,
    /// The timeout of the child, in seconds. A second has 100 polls.
    pub limit: u64,
}

/// An attempt of a case that has a running child or a pending cleanup, with the data of the case.
///
/// It also represents a running program that lists its test cases.
#[derive(Drop)]
pub(crate) struct CaseAttempt {
    /// The position of the case in the plan, counted from 0. It is 0 for a program that lists its
    /// cases.
    pub position: u32,
    /// The number of the attempt, counted from 0. A cleanup has the number of its body.
    pub attempt: u64,
    /// The role of the child that runs or ran last.
    pub role: Role,
    /// The interface of the case's program.
    pub interface: Interface,
    /// `true` if the case declares a cleanup.
    pub cleanup: bool,
    /// The paths of the attempt. A cleanup uses the paths of its body.
    pub paths: Paths,
}

impl CaseAttempt {
    ghost use Rattle.std.specs.Prelude.{◌≡◌};
    ghost use Rattle.kt_child.specs.Common.{child_of};

    /// Returns the name of the child of this attempt that runs or ran last: its attempt number and
    /// its role.
    pub(crate) fn child(&self) -> Child
        ensures { result ≡ child_of self.now }
    {
        Child {
            attempt: self.attempt,
            role: self.role,
        }
    }
}

/// A set of the values for the system calls that start a child.
#[derive(Drop)]
pub(crate) struct SpawnPlan {
    /// The name of the child: its attempt number and its role.
    pub child: Child,
    /// The timeout of the child, in seconds. A second has 100 polls.
    pub limit: u64,
    /// The absolute path of the program.
    pub program: Text,
    /// The arguments of the program, without the program's own name.
    pub words: Items<Text>,
    /// The changes that turn the runner's environment into the child's.
    pub env: EnvPlan,
    /// The path of the directory of the attempt, which contains `work`, `out` and `err`.
    pub dir: Text,
    /// The path of the working directory of the child.
    pub work: Text,
    /// The path of the file for the child's standard output.
    pub out: Text,
    /// The path of the file for the child's standard error.
    pub err: Text,
}
