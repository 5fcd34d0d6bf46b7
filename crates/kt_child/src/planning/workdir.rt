ghost use Rattle.std.specs.Prelude.{◌≡◌, IfOk};
ghost use Rattle.std.specs.Str.{chars};
ghost use Rattle.kt_child.specs.Planning.ChildPlan.{attempt_path, paths_of};

use kt_base::{NoMemory, Text};
use kt_removal::numbered_path;
use std::alloc::Global;

/// A set of the absolute paths of one attempt (this profile).
///
/// An attempt is the run of a body and its cleanup, or the run of a program that lists its test
/// cases.
pub struct Paths {
    /// The directory of the attempt, which contains the other paths.
    pub dir: Text,
    /// The working directory of each child of the attempt.
    pub work: Text,
    /// The result file of an ATF program.
    pub result: Text,
    /// The file for the standard output of the body, or of a program that lists its test cases.
    pub out: Text,
    /// The file for the standard error of the body, or of a program that lists its test cases.
    pub err: Text,
    /// The file for the standard output of the cleanup.
    pub cleanup_out: Text,
    /// The file for the standard error of the cleanup.
    pub cleanup_err: Text,
}

/// A manual impl instead of `#[derive(Drop)]`, so that the prover handles each drop as one call.
impl Drop for Paths {
    fn drop(self) {
        let Paths {
            dir: _,
            work: _,
            result: _,
            out: _,
            err: _,
            cleanup_out: _,
            cleanup_err: _,
        } = self;
    }
}

/// Returns `ROOT/NUMBER/NAME`, the path of `name` in the directory of the attempt `number`.
fn attempt_path(alloc: Global, root: &Text, number: u64, name: &str) -> Result<Text, NoMemory>
    ensures { IfOk result (λ path. path ≡ attempt_path root.now number (chars name.now)) }
{
    let mut path = numbered_path(alloc, root, "/", number)?;
    path.push('/')?;
    path.push_str(name)?;
    Ok(path)
}

/// Returns `ROOT/NUMBER/FIRST` and `ROOT/NUMBER/SECOND`, the paths of two files in the directory of
/// the attempt `number`.
fn attempt_path_pair(
    alloc: Global,
    root: &Text,
    number: u64,
    first: &str,
    second: &str,
) -> Result<(Text, Text), NoMemory>
    ensures first { IfOk result (λ two. two.0 ≡ attempt_path root.now number (chars first.now)) }
    ensures second { IfOk result (λ two. two.1 ≡ attempt_path root.now number (chars second.now)) }
{
    let first = attempt_path(alloc, root, number, first)?;
    Ok((first, attempt_path(alloc, root, number, second)?))
}

/// Returns the paths of the attempt `number` below `root`, the root directory of the driver (this
/// profile).
///
/// # Errors
///
/// - `NoMemory`: an allocation fails.
pub fn workdir_plan(alloc: Global, root: &Text, number: u64) -> Result<Paths, NoMemory>
    ensures { IfOk result (λ paths. paths ≡ paths_of root.now number) }
{
    let dir = numbered_path(alloc, root, "/", number)?;
    let work = attempt_path(alloc, root, number, "work")?;
    let result = attempt_path(alloc, root, number, "result")?;
    let (out, err) = attempt_path_pair(alloc, root, number, "out", "err")?;
    let (cleanup_out, cleanup_err) = attempt_path_pair(
        alloc,
        root,
        number,
        "cleanup.out",
        "cleanup.err",
    )?;
    Ok(Paths {
        dir,
        work,
        result,
        out,
        err,
        cleanup_out,
        cleanup_err,
    })
}
