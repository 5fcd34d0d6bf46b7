use crate::SuiteCause;
use kt_base::{Interface, Text};
use kt_metadata::Props;

/// A meaning of a statement of a Kyuafile: the effect of the statement, or its error.
///
/// The statement is not the first of its file. The meaning does not depend on the files of the
/// tree.
#[derive(Drop)]
pub enum Meaning {
    /// The statement sets this test suite for the programs after it.
    Suite(Text),
    /// The statement includes the file at this path, relative to the directory of the including
    /// file.
    Include(Text),
    /// The statement registers a program. The fields are its interface, its name in the directory
    /// of the file, its test suite and its properties.
    Program(Interface, Text, Text, Props),
    /// The statement has an error with this cause.
    Wrong(SuiteCause),
}
