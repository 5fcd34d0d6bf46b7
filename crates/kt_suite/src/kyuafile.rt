ghost use Rattle.std.specs.Prelude.{◌≡◌, chars, IfOk};
ghost use Rattle.kt_suite.specs.Common.{directory_of, name_in};

use crate::paths::split_after_slash;
use kt_base::{NoMemory, Text};
use std::alloc::Global;
use std::marker::Model;

/// The path of a Kyuafile, split after its last slash.
///
/// In contracts, a `Kyuafile` is the whole path.
#[derive(Drop)]
pub struct Kyuafile {
    /// The path up to its last slash, with the slash, or an empty text if the path has no slash.
    directory: Text,
    /// The part of the path after its last slash, or the whole path if it has no slash.
    name: Text,
}

impl Model for Kyuafile {
    ghost use Rattle.std.specs.Prelude.{◌≡◌, ◌++◌, ℕ, List};
    ghost use Rattle.kt_suite.specs.Common.{directory_of, name_in};

    ghost Value = { List ℕ };

    ghost view = { λ k. k.directory ++ k.name };

    ghost invariant = { λ k. (k.directory ≡ directory_of (k.directory ++ k.name))
        × (k.name ≡ name_in (k.directory ++ k.name)) };
}

impl Kyuafile {
    /// Splits `path`, the path of a Kyuafile.
    ///
    /// # Errors
    ///
    /// - `NoMemory`: an allocation fails.
    pub fn new(alloc: Global, path: &str) -> Result<Kyuafile, NoMemory>
        ensures { IfOk result (λ k. k ≡ chars path.now) }
    {
        let (directory, name) = split_after_slash(path);
        let directory = Text::from_str(alloc, directory)?;
        let name = Text::from_str(alloc, name)?;
        Ok(Kyuafile { directory, name })
    }

    /// Returns the path up to its last slash, with the slash.
    ///
    /// The result is empty if the path has no slash.
    pub fn directory(&self) -> &Text
        ensures { result.now ≡ directory_of self.now }
    {
        &self.directory
    }

    /// Returns the part of the path after its last slash.
    ///
    /// The result is the whole path if it has no slash, and empty if it ends in a slash.
    pub fn name(&self) -> &Text
        ensures { result.now ≡ name_in self.now }
    {
        &self.name
    }

    /// Returns a copy of the whole path.
    ///
    /// # Errors
    ///
    /// - `NoMemory`: an allocation fails.
    pub fn copy_path(&self) -> Result<Text, NoMemory>
        ensures { IfOk result (λ path. path ≡ self.now) }
    {
        let mut path = self.directory.copy()?;
        path.push_str(self.name.as_str())?;
        Ok(path)
    }
}
