ghost use Rattle.std.specs.Prelude.{◌≡◌, true};
ghost use Rattle.kt_removal.specs.Common.{IsCaseDirectory, MayEmpty, is_entry_name};

use crate::Removals;
use crate::entries::entry_path;
use kt_base::Text;
use std::rt::Files;

/// The name of the file for a body's standard output, in the directory of its case (this profile).
const STDOUT_NAME: &[u8] = b"out";

/// The name of the file for a body's standard error, in the directory of its case (this profile).
const STDERR_NAME: &[u8] = b"err";

/// The name of the result file that the body of an ATF case writes (this profile).
const RESULT_NAME: &[u8] = b"result";

/// The name of the file for a cleanup's standard output, in the directory of its case (this
/// profile).
const CLEANUP_OUT: &[u8] = b"cleanup.out";

/// The name of the file for a cleanup's standard error, in the directory of its case (this
/// profile).
const CLEANUP_ERR: &[u8] = b"cleanup.err";

/// The name of the directory in which a child runs, in the directory of its case (this profile).
const WORK_NAME: &[u8] = b"work";

impl Removals {
    /// Removes the file `name` from the directory `directory`. A failure is ignored.
    fn remove_named_file<R: Files + AllocGlobal>(&self, rt: &R, directory: &Text, name: &[u8])
        requires may { MayEmpty self.now directory.now }
        requires name { is_entry_name name.now ≡ true }
    {
        if let Ok(path) = entry_path(rt.alloc(), directory, name) {
            let _ = self.remove_file(rt, path.as_slice());
        }
    }

    /// Removes the work directory in `directory`, the directory of a case, if the work directory is
    /// empty. Returns `true` if the work directory was removed.
    fn remove_work_dir<R: Files + AllocGlobal>(&self, rt: &R, directory: &Text) -> bool
        requires { MayEmpty self.now directory.now }
    {
        match entry_path(rt.alloc(), directory, WORK_NAME) {
            Ok(path) => self.remove_empty_dir(rt, path.as_slice()).is_ok(),
            Err(_refusal) => false,
        }
    }

    /// Removes the known files in `directory`, the directory of a case, and then `directory` if it
    /// is empty.
    ///
    /// The known files are the outputs, the result file and the empty work directory. Returns
    /// `true` if `directory` was removed.
    ///
    /// The names in `directory` are not read. If the work directory is missing or has entries, only
    /// the body's outputs are removed. A symbolic link at the path of `directory` is not followed,
    /// and a mounted file system is left as it is.
    pub(crate) fn remove_known_files<R: Files + AllocGlobal>(
        &self,
        rt: &R,
        directory: &Text,
    ) -> bool
        requires { IsCaseDirectory self.now.root directory.now }
    {
        if !self.make_accessible(rt, directory) {
            return false;
        }
        self.remove_named_file(rt, directory, STDOUT_NAME);
        self.remove_named_file(rt, directory, STDERR_NAME);
        if !self.remove_work_dir(rt, directory) {
            return false;
        }
        if self.remove_if_empty(rt, directory) {
            return true;
        }
        self.remove_named_file(rt, directory, RESULT_NAME);
        if self.remove_if_empty(rt, directory) {
            return true;
        }
        self.remove_named_file(rt, directory, CLEANUP_OUT);
        self.remove_named_file(rt, directory, CLEANUP_ERR);
        self.remove_if_empty(rt, directory)
    }
}
