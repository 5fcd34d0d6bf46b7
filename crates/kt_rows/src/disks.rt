//! Database files in memory that fail after some calls, and operations on a database in such files.

use kt_base::Entry;
use kt_doubles::state_text;
use kt_examples::{
    ExampleFault, ExampleOutput, Result, convert_error, push_entries, push_or_fail, require_part,
    zip_results,
};
use kt_store::{Results, RunHead};
use sqlite::{Alter, Connection, Options};
use sqlite_disk::{Crash, Disk, Files, Fuse, Memory};
use std::alloc::Global;

/// The SQL statements that create a store of schema 1: the tables, and a finished run with one
/// entry.
const SCHEMA_1: &str =
    "CREATE TABLE meta (name TEXT PRIMARY KEY, value INTEGER NOT NULL) STRICT; CREATE TABLE runs (id INTEGER PRIMARY KEY, started INTEGER NOT NULL, total INTEGER NOT NULL, finished INTEGER NOT NULL CHECK (finished IN (0, 1))) STRICT; CREATE TABLE entries (run INTEGER NOT NULL REFERENCES runs (id), position INTEGER NOT NULL, program TEXT NOT NULL, case_name TEXT NOT NULL, kind INTEGER NOT NULL CHECK (kind BETWEEN 0 AND 4), reason TEXT NOT NULL, started INTEGER NOT NULL, millis INTEGER NOT NULL, body_out BLOB NOT NULL, body_err BLOB NOT NULL, clean_out BLOB NOT NULL, clean_err BLOB NOT NULL, PRIMARY KEY (run, position)) STRICT; INSERT INTO meta (name, value) VALUES ('schema', 1); INSERT INTO runs (started, total, finished) VALUES (5, 1, 1); INSERT INTO entries VALUES (1, 0, 'a', 'main', 3, 'x<y', 1700000000123, 12, X'68690A', X'', X'', X'')";

/// An interface to an operation on a database.
pub trait DatabaseOperation {
    /// The result of the operation.
    type WorkResult;

    /// Executes the operation on the database of `conn`. Returns the result of the operation, and
    /// the storage of the connection's database files.
    ///
    /// # Errors
    ///
    /// - `InvalidExample`: the operation fails in a way that no example expects.
    /// - `NoMemory`: an allocation outside the database failed.
    fn execute_on_database<S: Alter + Drop>(
        self,
        conn: Connection<S>,
    ) -> Result<(Self::WorkResult, S)>;
}

/// Executes an operation on the database in `files`, and closes the files. Returns the result and
/// the files, or `None` if the files can't be opened. The log is copied into the database file once
/// it has `frames` frames.
///
/// # Errors
///
/// - `InvalidExample` or `NoMemory`: `work` fails with this error.
pub fn run_on_files<D: Disk + Drop, W: DatabaseOperation + Drop>(
    alloc: Global,
    files: Files<D>,
    frames: usize,
    work: W,
) -> Result<Option<(W::WorkResult, Files<D>)>> {
    if !files.may_be_used() {
        return Ok(None);
    }
    let mut options = Options::new(1);
    options.checkpoint_frames = frames;
    match Connection::open_files(alloc, files, options) {
        Ok(conn) => {
            let (made, store) = work.execute_on_database(conn)?;
            Ok(Some((made, store.close())))
        }
        Err(_) => Ok(None),
    }
}

/// A `DatabaseOperation` that creates a store of schema 1 in an empty database.
#[derive(Clone, Copy)]
struct Schema1StoreCreator;

impl DatabaseOperation for Schema1StoreCreator {
    type WorkResult = ();

    fn execute_on_database<S: Alter + Drop>(self, mut conn: Connection<S>) -> Result<((), S)> {
        match conn.execute_batch(SCHEMA_1) {
            Ok(_) => Ok(((), conn.into_store())),
            Err(_) => Err(ExampleFault::InvalidExample("the old store is not made")),
        }
    }
}

/// Creates a file in memory with the contents `bytes`.
fn create_memory_file(alloc: Global, bytes: &[u8]) -> Result<Memory> {
    let mut file = Memory::new(alloc);
    if file.write_at(0, bytes).is_err() || file.sync().is_err() {
        return Err(ExampleFault::InvalidExample("the old store is not made"));
    }
    Ok(file)
}

/// Creates an empty log and an empty database file, both in memory.
pub fn create_empty_files(alloc: Global) -> Files<Memory> {
    Files {
        log: Memory::new(alloc),
        db: Memory::new(alloc),
    }
}

/// Creates database files in memory that contain a store of schema 1. The log is copied into the
/// database file once it has `frames` frames.
///
/// # Errors
///
/// - `InvalidExample`: the store can't be created.
/// - `NoMemory`: an allocation failed.
pub fn create_schema_1_files(alloc: Global, frames: usize) -> Result<Files<Memory>> {
    let empty = add_fuse(create_empty_files(alloc), true, u64::MAX);
    let made = run_on_files(alloc, empty, frames, Schema1StoreCreator)?;
    let ((), files) = require_part(made, "the old store is not made")?;
    let (log, db) = (files.log.inner().bytes(), files.db.inner().bytes());
    let (log, db) = zip_results(
        create_memory_file(alloc, log),
        create_memory_file(alloc, db),
    )?;
    Ok(Files { log, db })
}

/// Makes one of `files` fail after `calls` calls: the log if `log_fails` is set, and otherwise the
/// database file. Returns both files.
pub fn add_fuse(files: Files<Memory>, log_fails: bool, calls: u64) -> Files<Fuse<Memory>> {
    Files {
        log: Fuse::new(files.log, if log_fails { calls } else { u64::MAX }),
        db: Fuse::new(files.db, if log_fails { u64::MAX } else { calls }),
    }
}

/// Returns a text with the verdict, the times, the outputs and the properties of an entry. `entry`
/// is a list with only this entry.
fn full_entry_text(alloc: Global, entry: &[Entry]) -> Result<String> {
    let mut out = ExampleOutput::new(alloc);
    for keyword in ["cases", "outputs", "pairs"] {
        out.push_line("");
        push_entries(&mut out, keyword, entry);
    }
    convert_error(out.into_string())
}

/// Appends texts with the head, the entries and the state (`finished` or `unfinished`) of a run to
/// `texts`.
fn push_run_texts<S: Alter>(
    alloc: Global,
    texts: &mut Vec<String>,
    results: &mut Results<S>,
    head: &RunHead,
) -> Result<()> {
    let Ok(found) = results.entries(head.number) else {
        return Err(ExampleFault::InvalidExample("its entries can't be read"));
    };
    let text = format!(in alloc;
        "run {} at {}, {} cases",
        head.number, head.started, head.total
    );
    push_or_fail(texts, convert_error(text))?;
    for entry in found.as_slice().chunks(1) {
        push_or_fail(texts, full_entry_text(alloc, entry))?;
    }
    push_or_fail(
        texts,
        convert_error(String::from_str(alloc, state_text(head))),
    )
}

/// Returns texts with the head, the entries and the state (`finished` or `unfinished`) of each run
/// of the store `results`.
fn run_texts<S: Alter>(alloc: Global, results: &mut Results<S>) -> Result<Vec<String>> {
    let Ok(heads) = results.runs() else {
        return Err(ExampleFault::InvalidExample("its runs can't be read"));
    };
    let mut texts = Vec::new(alloc);
    for head in heads.as_slice() {
        push_run_texts(alloc, &mut texts, results, head)?;
    }
    Ok(texts)
}

/// Returns the schema number of a database, or `None` if the query fails.
fn query_schema_number<S: Alter>(conn: &mut Connection<S>) -> Option<i64> {
    let row = conn.query_row("SELECT value FROM meta WHERE name = 'schema'", &[]);
    row.ok()?.get(0).ok()
}

/// A `DatabaseOperation` that returns the schema number of a database, or 0 if there is none, and
/// the texts of all its runs. The query for the number is repeated once if it fails, because an
/// allocation may fail once.
#[derive(Clone, Copy)]
struct ContentReader {
    /// The allocator of the texts that describe the runs.
    alloc: Global,
}

impl DatabaseOperation for ContentReader {
    type WorkResult = (i64, Vec<String>);

    fn execute_on_database<S: Alter + Drop>(
        self,
        mut conn: Connection<S>,
    ) -> Result<(Self::WorkResult, S)> {
        let schema = query_schema_number(&mut conn).or_else(|| query_schema_number(&mut conn));
        if !conn.is_autocommit() {
            return Err(ExampleFault::InvalidExample("a transaction is open"));
        }
        match Results::attach(self.alloc, conn) {
            Ok(mut results) => {
                let texts = run_texts(self.alloc, &mut results)?;
                let store = results.detach().into_store();
                Ok(((schema.unwrap_or(0), texts), store))
            }
            Err(_) => Err(ExampleFault::InvalidExample("it can not be attached again")),
        }
    }
}

/// Simulates a crash, and returns the schema number and the texts of the runs that are left in the
/// files. The schema number is 0 if there is none.
///
/// # Errors
///
/// - `InvalidExample`: the files can't be opened, or the results tables can't be attached or read.
/// - `NoMemory`: an allocation outside the database failed.
pub fn crash_and_read<D: Crash + Drop>(
    alloc: Global,
    mut files: Files<D>,
    frames: usize,
) -> Result<(i64, Vec<String>)> {
    files.log.crash();
    files.db.crash();
    let left = run_on_files(alloc, files, frames, ContentReader { alloc })?;
    let (left, _) = require_part(left, "it does not open again")?;
    Ok(left)
}

/// Returns `true` if `left` consists of the first `first` + `lines` texts of `whole`, followed by
/// the text `unfinished`. `left` and `whole` are texts of runs. `first` is the number of texts of
/// the earlier runs, and `lines` that of the head and the entries of the unfinished run.
pub fn is_partial_run(left: &[String], whole: &[String], first: usize, lines: usize) -> bool {
    left.split_last().is_some_and(|(last, front)| {
        last.as_str() == "unfinished"
            && front.len() == first.saturating_add(lines)
            && whole.starts_with(front)
    })
}
