//! Errors of the results store.

ghost use Rattle.std.specs.Prelude.{◌≡◌, true, false, Some, None, IfOk, OnOk, OnErr};
ghost use Rattle.kt_store.specs.Common.{IsNoMemory, MatchesSqlError, MatchesRecoverError, MatchesTreeError, MatchesWriteError, IsOutOfMemory, IsAllocationFailure, IsDatabaseFault};

use kt_base::{NoMemory, OUT_OF_MEMORY};
use sqlite::{Error as SqlError, ErrorCode};
use sqlite_rules::error::WriteError;
use sqlite_std_file::OpenError;
use sqlite_trees::error::StoreError;
use std::io::ErrorKind;
use thiserror::Error;

/// Errors returned by a results store. `Display` prints the message of [`StoreFault::message`].
#[derive(Clone, Copy, Debug, Error)]
#[error("{}", self.message())]
pub enum StoreFault {
    /// An allocation failed.
    NoMemory(AllocationFailure),
    /// The database failed, for example because a call of SQLite failed or the file is damaged.
    Store(DatabaseFailure),
    /// No run has the requested number, or the run has no entry at the requested position.
    NoRun,
    /// The run is finished, so no entry can be added and it can't be finished again.
    RunClosed,
    /// The run has an entry at the position of the new entry already.
    RepeatedPosition,
    /// The store has 1,000,000 runs, the maximum (this profile).
    StoreFull,
    /// The schema number in the table `meta` is missing, is neither 1 nor 2, or isn't 2 although
    /// the tables are those of schema 2.
    UnknownSchema,
    /// The position of the new entry is not below the number of selected cases of the run.
    BadPosition,
    /// The run has fewer entries than selected cases, so it can't be finished.
    Incomplete,
}

impl StoreFault {
    ghost use Rattle.std.specs.Prelude.{◌≡◌};
    ghost use Rattle.kt_store.specs.Ask.{fault_message};

    /// Returns the message that a command prints for the error (this profile). Allocates nothing.
    pub fn message(&self) -> &'static str
        ensures { result.now ≡ fault_message self.now }
    {
        match self {
            StoreFault::NoMemory(_) => OUT_OF_MEMORY,
            _ => "results store failed",
        }
    }

    /// Returns `true` if the results file can't be opened because another process uses it.
    pub fn is_in_use(&self) -> bool {
        matches!(self, StoreFault::Store(failed) if failed.is_in_use)
    }
}

/// Errors returned by a database operation of the store: memory ran out, or the database failed.
#[derive(Clone, Copy)]
pub enum DatabaseError {
    /// An allocation failed.
    NoMemory(AllocationFailure),
    /// The database failed, for example because a call of SQLite failed or the file is damaged.
    Failed(DatabaseFailure),
}

impl From<DatabaseError> for StoreFault {
    ghost use Rattle.kt_store.specs.Ask.{IsDatabaseFault};

    ghost from_gives = { λ _ fault. IsDatabaseFault fault };

    fn from(trouble: DatabaseError) -> StoreFault {
        match trouble {
            DatabaseError::NoMemory(shortage) => StoreFault::NoMemory(shortage),
            DatabaseError::Failed(failed) => StoreFault::Store(failed),
        }
    }
}

/// A witness that an allocation failed, in the program's allocator or in SQLite. Only this module
/// creates witnesses.
#[derive(Clone, Copy, Debug)]
pub struct AllocationFailure(AllocationSeal);

/// A witness that the database of a results store failed.
///
/// A statement, an open or a close failed, a transaction is already open, a B-tree is damaged, or a
/// row doesn't obey the schema. Only this module creates witnesses. Other modules can copy the
/// witness in [`DATABASE_FAILURE`].
#[derive(Clone, Copy, Debug)]
pub struct DatabaseFailure {
    /// `true` if the results file can't be opened because another process uses it.
    is_in_use: bool,
}

/// The error of a database that failed for any reason except that another process uses the file.
pub const DATABASE_FAILURE: DatabaseError = DatabaseError::Failed(DatabaseFailure {
    is_in_use: false,
});

/// A private type for the field of [`AllocationFailure`], so that no other module can create an
/// `AllocationFailure`.
#[derive(Clone, Copy, Debug)]
struct AllocationSeal;

impl From<NoMemory> for StoreFault {
    ghost from_gives = { λ _ fault. IsNoMemory fault };

    fn from(_refusal: NoMemory) -> StoreFault {
        StoreFault::NoMemory(AllocationFailure(AllocationSeal))
    }
}

impl From<NoMemory> for DatabaseError {
    ghost from_gives = { λ _ trouble. IsAllocationFailure trouble };

    fn from(_refusal: NoMemory) -> DatabaseError {
        DatabaseError::NoMemory(AllocationFailure(AllocationSeal))
    }
}

impl From<SqlError> for DatabaseError {
    ghost from_gives = { MatchesSqlError };

    fn from(error: SqlError) -> DatabaseError {
        match error {
            SqlError::SqliteFailure(ErrorCode::OutOfMemory) => DatabaseError::NoMemory(
                AllocationFailure(AllocationSeal),
            ),
            _ => DATABASE_FAILURE,
        }
    }
}

impl From<StoreError> for DatabaseError {
    ghost from_gives = { MatchesTreeError };

    fn from(error: StoreError) -> DatabaseError {
        match error {
            StoreError::OutOfMemory => DatabaseError::NoMemory(AllocationFailure(AllocationSeal)),
            _ => DATABASE_FAILURE,
        }
    }
}

impl From<sqlite_store::OpenError> for DatabaseError {
    ghost from_gives = { MatchesRecoverError };

    fn from(error: sqlite_store::OpenError) -> DatabaseError {
        match error {
            sqlite_store::OpenError::OutOfMemory => DatabaseError::NoMemory(AllocationFailure(
                AllocationSeal,
            )),
            _ => DATABASE_FAILURE,
        }
    }
}

impl From<StoreError> for StoreFault {
    ghost from_gives = { λ _ fault. IsDatabaseFault fault };

    fn from(error: StoreError) -> StoreFault {
        StoreFault::from(DatabaseError::from(error))
    }
}

impl From<WriteError> for DatabaseError {
    ghost from_gives = { MatchesWriteError };

    fn from(error: WriteError) -> DatabaseError {
        match error {
            WriteError::Failed(error) => DatabaseError::from(error),
            WriteError::Refused(_) => DATABASE_FAILURE,
        }
    }
}

/// Converts `error`, an error of opening the results file and its log, to a `DatabaseError`. The
/// result states whether memory ran out, and whether another process uses the file.
pub fn convert_open_error(error: &OpenError) -> DatabaseError
    ensures short { IsAllocationFailure result → IsOutOfMemory error.now }
{
    let is_short = match error {
        OpenError::OutOfMemory => true,
        OpenError::Io(error) => error.kind() == ErrorKind::OutOfMemory,
        OpenError::Busy => return DatabaseError::Failed(DatabaseFailure { is_in_use: true }),
        OpenError::HotJournal => false,
    };
    if is_short {
        DatabaseError::NoMemory(AllocationFailure(AllocationSeal))
    } else {
        DATABASE_FAILURE
    }
}

/// Checks that `is_sound`, the result of a check of the results file or of its path, is `true`.
/// Allocates nothing.
///
/// # Errors
///
/// - `Failed`: `is_sound` is `false`.
pub fn ensure_sound(is_sound: bool) -> Result<(), DatabaseError>
    ensures sound { OnOk result (is_sound ≡ true) }
    ensures damaged { OnErr result (is_sound ≡ false) }
{
    if is_sound {
        Ok(())
    } else {
        Err(DATABASE_FAILURE)
    }
}

/// Returns the value of `found`, without which the database operation fails. Allocates nothing.
///
/// # Errors
///
/// - `Failed`: `found` is `None`.
pub fn require_present<T>(found: Option<T>) -> Result<T, DatabaseError>
    ensures there { IfOk result (λ it. found ≡ Some it) }
    ensures damaged { OnErr result (found ≡ None) }
{
    match found {
        Some(it) => Ok(it),
        None => Err(DATABASE_FAILURE),
    }
}
