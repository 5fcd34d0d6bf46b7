ghost use Rattle.std.specs.Prelude.{IfErr, IfOk, IsTrue, true, false};
ghost use Rattle.kt_dbfile.specs.Common.{HasCleanDisk};
ghost use Rattle.sqlite.specs.Files.{Finds, IsCleanLeft, IsOpened, LeavesFiles, file_state};
ghost use Rattle.sqlite_std_file.specs.File.{file_is_usable, IsFresh};

use kt_base::Text;
use kt_store::store_fault::{DatabaseError, convert_open_error};
use sqlite::{Connection, FileFrom, FileStore, Leftover, Start};
use sqlite_disk::{Disk, Files};
use sqlite_pager::Options;
use std::alloc::Global;
use std::marker::PhantomData;

/// A witness that no file was opened by a failed open of the results file.
///
/// The open has consumed a value of the type `S`, which represents the initial content of the file
/// in contracts. The method `recover_contents` of `TrustedContents` exchanges the witness for this
/// value, so that the open can be retried. Only [`open_file_and_log`] creates witnesses.
#[derive(Drop)]
pub struct FailedOpenWitness<S> {
    marker: PhantomData<S>,
}

/// Opens the results file at the path `file` and its log, and creates each of the two files that is
/// missing. On failure, returns the error with a witness of the failed open. `start` represents the
/// initial contents of both files, in contracts alone.
pub(crate) fn open_file_and_log<S: Start>(
    rt: &HostRuntime,
    file: &Text,
    start: S,
) -> Result<Files<FileFrom<S>>, (DatabaseError, FailedOpenWitness<S>)>
    ensures log { IfOk result (λ files. IsTrue (file_is_usable S.Start files.log)) }
    ensures db { IfOk result (λ files. IsTrue (file_is_usable S.Start files.db)) }
    ensures fresh { IfOk result (λ files. IsFresh true files.log × IsFresh false files.db) }
{
    match sqlite_std_file::open(rt, file.as_str(), start) {
        Ok(files) => Ok(files),
        Err(error) => {
            let unused = FailedOpenWitness {
                marker: PhantomData,
            };
            Err((convert_open_error(&error), unused))
        }
    }
}

/// Opens a connection to the database in `files`, the results file and its log, and checks each
/// page and row. Creates the database if the database file is empty. On failure, returns the error
/// with both files, as a `Leftover`.
pub(crate) fn connect<D: Disk + Drop>(
    alloc: Global,
    files: Files<D>,
    options: Options,
) -> Result<Connection<FileStore<D>>, (DatabaseError, Leftover<D>)>
    requires log { IsTrue (D.Disk.is_usable files.log) }
    requires db { IsTrue (D.Disk.is_usable files.db) }
    ensures opened { IfOk result (λ conn. HasCleanDisk (file_state conn)
        → IsOpened conn × Finds files conn) }
    ensures left { IfErr result (λ e. IsCleanLeft e.1 → LeavesFiles files e.1) }
{
    match Connection::open_files(alloc, files, options) {
        Ok(conn) => Ok(conn),
        Err((error, left)) => Err((DatabaseError::from(error), left)),
    }
}
