use kt_base::{Interface, Text};
use kt_metadata::Props;

/// A test program that a Kyuafile registers.
#[derive(Drop)]
pub struct Program {
    /// The interface by which the program reports its test cases and results.
    pub interface: Interface,
    /// The path of the program, relative to the directory of the root Kyuafile.
    pub path: Text,
    /// The name of the test suite of the program, which is not empty.
    pub suite: Text,
    /// The properties in the table of the call that registers the program.
    pub props: Props,
}
