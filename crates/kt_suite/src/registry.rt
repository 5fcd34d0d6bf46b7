ghost use Rattle.std.specs.Prelude.{◌≡◌, ◌-◌, length, take, drop};

use crate::Program;
use kt_base::{Items, Text};

/// A state of the loader: the open Kyuafiles, the number of Kyuafiles counted so far, and the
/// registered programs.
pub struct Registry {
    /// The paths of the open Kyuafiles, whose statements are not all executed: the root first, then
    /// each file after the file that includes it.
    pub open_kyuafiles: Items<Text>,
    /// The number of Kyuafiles counted so far, the root included, at most 10,000. A file is counted
    /// before it is read. A file that is read twice counts twice.
    pub files: usize,
    /// The programs in the order of their registration, at most 10,000.
    pub programs: Items<Program>,
}

/// A manual impl instead of `#[derive(Drop)]`, so that the prover handles each drop as one call.
impl Drop for Registry {
    fn drop(self) {
        let Registry {
            open_kyuafiles: _,
            files: _,
            programs: _,
        } = self;
    }
}

impl Registry {
    /// Converts the registry to the list of its registered programs.
    pub fn into_programs(self) -> Items<Program>
        ensures { result ≡ self.programs }
    {
        let Registry {
            open_kyuafiles: _,
            files: _,
            programs,
        } = self;
        programs
    }

    /// Removes the last of the open files, and returns the registry.
    ///
    /// All statements of this file were executed.
    pub fn close_last_file(self) -> Registry
        ensures { result ≡ (record self { open_kyuafiles = take (length self.open_kyuafiles - 1) self.open_kyuafiles }) }
    {
        let Registry {
            open_kyuafiles,
            files,
            programs,
        } = self;
        let mut open = open_kyuafiles.into_vec();
        let _ = open.pop();
        Registry {
            open_kyuafiles: Items::from_vec(open),
            files,
            programs,
        }
    }
}

/// A next step of the loader after the execution of a statement.
#[derive(Drop)]
pub enum LoadStep {
    /// The loader executes the next statement of the file. The field is the loader's state.
    Next(Registry),
    /// The loader reads the Kyuafile at this path, before it executes the next statement of the
    /// including file. The first field is the loader's state.
    Enter(Registry, Text),
}
