ghost use Rattle.std.specs.Prelude.{◌≡◌, ◌⊎◌, codes, pos, true, false, IsTrue, IfErr, IfOk, IfSome, OnOk, Err, Ok, List};
ghost use Rattle.kt_dbfile.specs.Common.{EndsTransaction, FailsToAttach, FailsToAttachFiles, FailsToOpen, RepresentsImage, HasCommitted, HasOtherSchema, IsConvertedFrom, IsOnlyRead, IsDatabaseFault, IsAttached, IsAttachedFiles, IsUri, LeavesRuns, OnlyReadsStore, Run, StandsFor, schema_2, state};
ghost use Rattle.kt_store.specs.Runs.{HasSchemaNumber};
ghost use Rattle.kt_store.specs.TrustedContents.{IsTrustedImage};
ghost use Rattle.sqlite.specs.Files.{image_of};
ghost use Rattle.sqlite_catalog.specs.Listing.{IsSound, Lists};
ghost use Rattle.sqlite_schema.specs.declared.schema.Schema.{Schema as Tables};
ghost use Rattle.sqlite_trees.specs.Objects.{catalog_tree};
ghost use Rattle.sqlite_std_file.specs.File.{file_is_usable, IsFresh};
ghost use Rattle.sqlite_trees.specs.View.{IsClean, IsRolledBack};
ghost use Rattle.sqlite_wal.specs.Files.{outcomes};

use crate::files::{FailedOpenWitness, connect, open_file_and_log};
use crate::layout::has_tables;
use crate::mounts::is_mounted_alone;
use crate::new_file::create_missing_file;
use crate::opening::{close_store, open_known_files, store_options};
use crate::result_trees::ResultTrees;
use crate::trusted_contents::TrustedContents;
use kt_base::{Entry, NoMemory, Text, Variables};
use kt_store::attach::theorem_of_valid_contents;
use kt_store::store_fault::{DatabaseError, ensure_sound, require_present};
use kt_store::{Access, CaseOutputs, ResultStore, Results, RunHead, StoreFault, StoreSpec};
use sqlite::{Alter, Connection, FileFrom, FileStore, Leftover};
use sqlite_catalog::load::load;
use sqlite_disk::{Disk, Files};
use sqlite_pager::Options;
use sqlite_schema::schema::Schema;
use std::alloc::Global;
use std::marker::Model;
use std::thread;
use std::time::Duration;

/// An open results file: recorded runs in an SQLite database of schema 2 (docs/formats/store.md).
///
/// Reads find rows by seeks in the B-trees of the file. Writes follow the constraints of the
/// schema. In contracts, the value of a `RunsFile` is its store of B-trees. The clauses hold while
/// the disk returns the data that was written and no other process writes the database.
#[derive(Drop)]
pub struct RunsFile<S: Alter> {
    trees: ResultTrees<S>,
    schema: Schema,
}

impl<S: Alter> Model for RunsFile<S> {
    ghost use Rattle.kt_dbfile.specs.Inner.Edits.{IsSettledStore};

    ghost Value = { S };

    ghost coded = { S.code };

    ghost view = { λ r. r.trees.store };

    ghost invariant = { λ r. IsSettledStore (S.Store.view r.trees.store) r.schema };
}

impl<S: Alter> ResultTrees<S> {
    /// Reads the tables and indexes from SQLite's table `sqlite_schema`. Returns `None` if a row of
    /// this table doesn't describe a table or an index.
    fn load_schema(&self) -> Result<Option<Schema>, NoMemory>
        requires { IsClean (S.Store.view self.now.store)
            → (S.Store.view self.now.store).is_broken ≡ false }
        ensures { IsClean (S.Store.view self.now.store) → IfOk result (λ found. IfSome found
            (Lists ((S.Store.view self.now.store).trees catalog_tree))) }
    {
        let found = load(&self.store, self.alloc)?;
        Ok(found)
    }

    /// Returns the schema. Fails if the store is broken by an earlier failed call, or if its schema
    /// lacks the tables of a results file.
    fn load_results_schema(&self) -> Result<Schema, DatabaseError>
        ensures { IsClean (S.Store.view self.now.store) → IfOk result (λ schema.
            ((S.Store.view self.now.store).is_broken ≡ false)
            × Lists ((S.Store.view self.now.store).trees catalog_tree) schema) }
    {
        ensure_sound(!self.store.is_broken())?;
        let schema = require_present(self.load_schema()?)?;
        ensure_sound(has_tables(&schema))?;
        Ok(schema)
    }

    /// Commits the rows that were written, and returns the value of `written`, the result of the
    /// writes. If `written` is an error, rolls the transaction back. A failed commit rolls the
    /// transaction back itself.
    fn end_transaction<T: Drop>(&mut self, written: Result<T, StoreFault>) -> Result<T, StoreFault>
        ensures { EndsTransaction S.Store self.old.store self.new.store written result }
    {
        let value = match written {
            Ok(value) => value,
            Err(fault) => {
                self.store.rollback();
                return Err(fault);
            }
        };
        self.store.commit()?;
        Ok(value)
    }
}

/// Creates a `RunsFile` over `trees`, which have no uncommitted changes. Fails if their store is
/// broken by an earlier failed call, or lacks the tables of a results file. The store is returned
/// with the error. The caller guarantees that the store obeys its schema.
fn wrap_trees<S: Alter>(trees: ResultTrees<S>) -> Result<RunsFile<S>, (DatabaseError, S)>
    requires settled { IsClean (S.Store.view trees.store)
        → (S.Store.view trees.store).is_broken ≡ false
        → (S.Store.view trees.store).trees ≡ (S.Store.view trees.store).committed }
    requires sound { IsTrue (S.Store.view trees.store).is_open
        → (schema : Tables) × IsSound schema (S.Store.view trees.store).committed }
    ensures same { IfOk result (λ r. r ≡ trees.store) }
    ensures back { IfErr result (λ e. e.1 ≡ trees.store) }
{
    match trees.load_results_schema() {
        Ok(schema) => Ok(RunsFile { trees, schema }),
        Err(failure) => Err((failure, trees.store)),
    }
}

/// Converts `connection` to its store of B-trees. Uncommitted changes are lost.
fn detach_store<S: Alter + Drop>(connection: Connection<S>) -> S
    ensures from { IsConvertedFrom S.Store connection result }
    ensures undone { IsRolledBack (S.Store.view connection.store) (S.Store.view result) }
{
    connection.into_store()
}

/// Converts `connection`, on which [`Results::attach`] has succeeded, to a `RunsFile`. Uncommitted
/// changes are lost. On failure, returns the error with the store of the connection.
fn convert_connection<S: Alter + Drop>(
    alloc: Global,
    connection: Connection<S>,
) -> Result<RunsFile<S>, (StoreFault, S)>
    ensures stands { IfOk result (λ r. (runs : List Run)
        → StandsFor (state S.Store connection) runs → HasCommitted (S.Store.view r) runs) }
    ensures value { IfOk result (IsConvertedFrom S.Store connection) }
    ensures left { IfErr result (λ e. IsConvertedFrom S.Store connection e.1) }
    ensures failed { IfErr result (λ e. IsDatabaseFault e.0) }
{
    theorem_of_valid_contents(&connection);
    let store = detach_store(connection);
    match wrap_trees(ResultTrees { store, alloc }) {
        Ok(it) => Ok(it),
        Err((failure, store)) => Err((StoreFault::from(failure), store)),
    }
}

impl<S: Alter + Drop> RunsFile<S> {
    ghost use Rattle.std.specs.Prelude.{IfOk, IfErr, IsTrue, List};
    ghost use Rattle.kt_dbfile.specs.Common.{state, HasCleanDisk, HasCommitted, IsDatabaseFault, Run, StandsFor};
    ghost use Rattle.sqlite_trees.specs.Tree.{Trees};
    ghost use Rattle.sqlite_trees.specs.View.{IsClean};

    /// Converts `results`, the result of [`Results::attach`], to a `RunsFile`. Uncommitted changes
    /// of the connection are lost.
    ///
    /// # Errors
    ///
    /// - `Store`: an earlier failed call has broken the connection, or the database lacks the
    ///   tables of a results file.
    /// - `NoMemory`: memory ran out.
    pub fn from_results(results: Results<S>) -> Result<RunsFile<S>, StoreFault>
        ensures stands { IfOk result (λ r. (runs : List Run)
            → StandsFor (state S.Store results) runs → HasCommitted (S.Store.view r) runs) }
        ensures earlier { IfOk result (λ r. IsClean (S.Store.view r)
            → HasCleanDisk (state S.Store results)) }
        ensures crash { IfOk result (λ r. (trees : Trees) → S.Store.recovers r trees
            → (state S.Store results).may_leave trees) }
        ensures numbered { IfOk result (λ r. IsClean (S.Store.view r)
            → IsTrue (S.Store.view r).is_numbered) }
        ensures failed { IfErr result IsDatabaseFault }
    {
        let (alloc, connection) = results.into_parts();
        match convert_connection(alloc, connection) {
            Ok(it) => Ok(it),
            Err((fault, _store)) => Err(fault),
        }
    }

    /// Converts the results file to its store of B-trees. Allocates nothing.
    pub fn into_store(self) -> S
        ensures { result ≡ self }
    {
        let RunsFile { trees, schema: _ } = self;
        trees.store
    }
}

impl<D: Disk + Drop> RunsFile<FileStore<D>> {
    ghost use Rattle.std.specs.Prelude.{OnOk, IfErr};
    ghost use Rattle.kt_dbfile.specs.Common.{ClosesCleanly, FailsToClose, IsDatabaseFault, StaysNumbered};
    ghost use Rattle.sqlite_store.specs.FileStore.{view};

    /// Closes the results file. On success, the database file alone, without the log, contains all
    /// runs of the last commit.
    ///
    /// # Errors
    ///
    /// The store is returned with the error. Its file and its log have the runs of the last commit.
    /// If a call failed after this commit, they may also have the change of that call.
    ///
    /// - `Store`: the log can't be copied into the file.
    /// - `NoMemory`: memory ran out.
    pub fn close(self) -> Result<(), (StoreFault, FileStore<D>)>
        ensures closed { OnOk result (ClosesCleanly self) }
        ensures failed { IfErr result (λ e. IsDatabaseFault e.0) }
        ensures left { IfErr result (λ e. FailsToClose self e.1) }
        ensures numbered { IfErr result (λ e. StaysNumbered (view self) (view e.1)) }
    {
        // Separate for the prover: over a disk, a call of `into_store` takes 30 seconds to prove.
        let RunsFile { trees, schema: _ } = self;
        match close_store(trees.store) {
            Ok(()) => Ok(()),
            Err((failure, left)) => Err((StoreFault::from(failure), left)),
        }
    }
}

/// Creates, checks or migrates the tables of the database that `connection` opened, by
/// [`Results::attach`]. Converts the connection to a `RunsFile`. Fails with `UnknownSchema` if the
/// schema number is missing or neither 1 nor 2. On failure, returns the error with the store of the
/// connection.
fn attach_and_convert<S: Alter + Drop>(
    alloc: Global,
    connection: Connection<S>,
) -> Result<RunsFile<S>, (StoreFault, S)>
    ensures attached { IfOk result (IsAttached S.Store connection) }
    ensures due { IfErr result (λ e. IsDatabaseFault e.0 ⊎ (e.0 ≡ StoreFault.UnknownSchema)) }
    ensures left { IfErr result (λ e. FailsToAttach S.Store connection e.0 e.1) }
{
    match Results::attach(alloc, connection) {
        Ok(results) => {
            let (alloc, attached) = results.into_parts();
            convert_connection(alloc, attached)
        }
        Err((fault, connection)) => Err((fault, detach_store(connection))),
    }
}

/// Creates, checks or migrates the tables of the database in the files of `connection`, by
/// [`Results::attach`]. Converts the connection to a `RunsFile`. Fails with `UnknownSchema` if the
/// schema number is missing or neither 1 nor 2. On failure, returns the error with the store of the
/// connection.
///
/// Separate for the prover: functions that depend on how a store over files is read are slow to
/// prove.
fn attach_files_and_convert<D: Disk + Drop>(
    alloc: Global,
    connection: Connection<FileStore<D>>,
) -> Result<RunsFile<FileStore<D>>, (StoreFault, FileStore<D>)>
    ensures attached { IfOk result (IsAttachedFiles connection) }
    ensures due { IfErr result (λ e. IsDatabaseFault e.0 ⊎ (e.0 ≡ StoreFault.UnknownSchema)) }
    ensures left { IfErr result (λ e. FailsToAttachFiles connection e.0 e.1) }
{
    attach_and_convert(alloc, connection)
}

/// Creates a `RunsFile` over `store`, whose schema list is the list of schema 2. Fails with
/// `UnknownSchema` if the table `meta` has another schema number. The store, which was only read,
/// is returned with the error.
///
/// Separate for the prover: functions that depend on how a store over files is read are slow to
/// prove.
fn wrap_schema_2<S: Alter>(alloc: Global, store: S) -> Result<RunsFile<S>, (StoreFault, S)>
    requires settled { (S.Store.view store).trees ≡ (S.Store.view store).committed }
    requires sound { IsTrue (S.Store.view store).is_open
        → IsSound schema_2 (S.Store.view store).committed }
    ensures found { IfOk result (λ r. OnlyReadsStore S.Store store r
        × (IsClean (S.Store.view r) → HasSchemaNumber (pos 2) (S.Store.view store).trees)) }
    ensures left { IfErr result (λ e. OnlyReadsStore S.Store store e.1) }
    // The error is `UnknownSchema` only if the schema number is another than 2.
    ensures unknown { IfErr result (λ e. IsDatabaseFault e.0 ⊎ ((e.0 ≡ StoreFault.UnknownSchema)
        × (IsClean (S.Store.view e.1) → HasOtherSchema (S.Store.view store).trees))) }
{
    let mut trees = ResultTrees { store, alloc };
    if let Err(fault) = trees.check_schema_number() {
        return Err((fault, trees.store));
    }
    match wrap_trees(trees) {
        Ok(it) => Ok(it),
        Err((failure, store)) => Err((StoreFault::from(failure), store)),
    }
}

/// Opens `files`, the results file and its log, if they list the tables of schema 2. If
/// [`open_known_files`] doesn't recognize the files, they are only read and returned as the inner
/// error. Fails with `UnknownSchema` if the table `meta` has another schema number. On failure,
/// returns the error with both files, as a `Leftover`.
fn open_known_results<D: Disk + Drop>(
    alloc: Global,
    files: Files<D>,
    options: Options,
) -> Result<Result<RunsFile<FileStore<D>>, Files<D>>, (StoreFault, Leftover<D>)>
    requires log { IsTrue (D.Disk.is_usable files.log) }
    requires db { IsTrue (D.Disk.is_usable files.db) }
    requires held { IsTrustedImage (image_of D.Disk files) }
    ensures found { IfOk result (λ found. IfOk found (RepresentsImage (image_of D.Disk files))) }
    ensures back { IfOk result (λ found. IfErr found (IsOnlyRead D.Disk files)) }
    ensures due { IfErr result (λ e. IsDatabaseFault e.0 ⊎ (e.0 ≡ StoreFault.UnknownSchema)) }
    ensures left { IfErr result (λ e.
        LeavesRuns (outcomes D.Disk files.log files.db) (image_of D.Disk files) e.1 e.0) }
{
    let store = match open_known_files(alloc, files, options) {
        Ok(Ok(store)) => store,
        Ok(Err(left)) => return Ok(Err(left)),
        Err((failure, left)) => return Err((StoreFault::from(failure), left)),
    };
    match wrap_schema_2(alloc, store) {
        Ok(it) => Ok(Ok(it)),
        Err((fault, read)) => Err((fault, Leftover::Store(read))),
    }
}

/// Opens `files`, the results file and its log. If they don't list the tables of schema 2, the
/// tables are created, checked or migrated by [`Results::attach`]. Fails with `UnknownSchema` if
/// the files list the tables of schema 2, but the schema number isn't 2. For other tables, fails
/// with `UnknownSchema` if the schema number is missing or neither 1 nor 2. On failure, returns the
/// error with both files, as a `Leftover`.
fn open_results<D: Disk + Drop>(
    alloc: Global,
    files: Files<D>,
    options: Options,
) -> Result<RunsFile<FileStore<D>>, (StoreFault, Leftover<D>)>
    requires log { IsTrue (D.Disk.is_usable files.log) }
    requires db { IsTrue (D.Disk.is_usable files.db) }
    requires held { IsTrustedImage (image_of D.Disk files) }
    ensures opened { IfOk result (RepresentsImage (image_of D.Disk files)) }
    ensures due { IfErr result (λ e. IsDatabaseFault e.0 ⊎ (e.0 ≡ StoreFault.UnknownSchema)) }
    ensures left { IfErr result (λ e.
        FailsToOpen (outcomes D.Disk files.log files.db) (image_of D.Disk files) e.1 e.0) }
{
    let left = match open_known_results(alloc, files, options) {
        Ok(Ok(known)) => return Ok(known),
        Ok(Err(left)) => left,
        Err((fault, left)) => return Err((fault, left)),
    };
    let connection = match connect(alloc, left, options) {
        Ok(connection) => connection,
        Err((failure, left)) => return Err((StoreFault::from(failure), left)),
    };
    match attach_files_and_convert(alloc, connection) {
        Ok(it) => Ok(it),
        Err((fault, store)) => Err((fault, Leftover::Store(store))),
    }
}

/// The maximum number of retries of an open while another process uses the results file.
const MAX_RETRIES: usize = 100;

/// The pause before an open is retried, in milliseconds.
const PAUSE_MILLIS: u64 = 50;

/// Pauses for 50 ms if `fault` reports that another process uses the results file. Returns any
/// other fault as the error.
fn pause_if_in_use(rt: &HostRuntime, fault: StoreFault) -> Result<(), StoreFault>
    ensures { IfErr result (λ e. e ≡ fault) }
{
    if !fault.is_in_use() {
        return Err(fault);
    }
    thread::sleep(rt, Duration::from_millis(PAUSE_MILLIS));
    Ok(())
}

/// Opens the results file at the path `file` and its log, without a retry. Creates the results file
/// if it doesn't exist. On failure, returns the error with a witness of the failed open. `start`
/// represents the initial content of the file, in contracts alone.
fn try_open<S: TrustedContents>(
    rt: &HostRuntime,
    file: &Text,
    start: S,
) -> Result<Files<FileFrom<S>>, (StoreFault, FailedOpenWitness<S>)>
    ensures log { IfOk result (λ files. IsTrue (file_is_usable S.Start files.log)) }
    ensures db { IfOk result (λ files. IsTrue (file_is_usable S.Start files.db)) }
    ensures fresh { IfOk result (λ files. IsFresh true files.log × IsFresh false files.db) }
    ensures failed { IfErr result (λ e. IsDatabaseFault e.0) }
{
    create_missing_file(rt, file);
    match open_file_and_log(rt, file, start) {
        Ok(files) => Ok(files),
        Err((trouble, failed)) => Err((StoreFault::from(trouble), failed)),
    }
}

/// Opens the results file at the path `file` and its log. Creates the results file if it doesn't
/// exist. While another process uses the file, retries for 5 seconds. `start` represents the
/// initial content of the file, in contracts alone. It is returned with the error, and consumed on
/// success, so it serves at most one successful open.
fn open_files<S: TrustedContents>(
    rt: &HostRuntime,
    file: &Text,
    start: S,
) -> Result<Files<FileFrom<S>>, (StoreFault, S)>
    ensures log { IfOk result (λ files. IsTrue (file_is_usable S.Start files.log)) }
    ensures db { IfOk result (λ files. IsTrue (file_is_usable S.Start files.db)) }
    ensures fresh { IfOk result (λ files. IsFresh true files.log × IsFresh false files.db) }
    ensures failed { IfErr result (λ e. IsDatabaseFault e.0) }
{
    let mut start = start;
    for _ in 0..MAX_RETRIES {
        match try_open(rt, file, start) {
            Ok(files) => return Ok(files),
            Err((fault, failed)) => {
                start = S::recover_contents(failed);
                if let Err(fault) = pause_if_in_use(rt, fault) {
                    return Err((fault, start));
                }
            }
        }
    }
    match try_open(rt, file, start) {
        Ok(files) => Ok(files),
        Err((fault, failed)) => Err((fault, S::recover_contents(failed))),
    }
}

/// Returns `true` if SQLite opens `path` as the path of a file, not as `:memory:` or as a URI.
fn is_file_path(path: &str) -> bool
    ensures { result ≡ false → (path.now ≡ codes ":memory:") ⊎ IsUri path.now }
{
    path != ":memory:" && !path.starts_with("file:")
}

/// Checks the path `file` of a results file, and returns the options of its store. Fails if SQLite
/// doesn't open the path as a file, or if the file is mounted as a single file. Also fails if the
/// system provides no random number.
fn store_options_for_path(
    rt: &HostRuntime,
    file: &Text,
    access: Access,
) -> Result<Options, DatabaseError> {
    ensure_sound(is_file_path(file.as_str()))?;
    ensure_sound(!is_mounted_alone(rt, file))?;
    let options = require_present(store_options(rt, access.max_cached_pages()))?;
    Ok(options)
}

impl<S: TrustedContents> RunsFile<FileStore<FileFrom<S>>> {
    ghost use Rattle.std.specs.Prelude.{◌≡◌, ◌⊎◌, IfOk, IfErr, is_some};
    ghost use Rattle.kt_dbfile.specs.Common.{FailsToOpen, RepresentsImage, IsDatabaseFault, image_at};

    /// Opens the results file at the path `file`. Creates the file if it doesn't exist.
    ///
    /// `start` represents the initial content of the file, in contracts alone. An open consumes it,
    /// so a value serves one open. `access` decides how many pages are cached.
    ///
    /// # Errors
    ///
    /// The open results file and its log are returned with the error, as a `Leftover`. They have
    /// the runs from before the open, but runs in schema 1 may have been migrated. If no file was
    /// opened, `start` is returned instead.
    ///
    /// - `NoMemory`: memory ran out.
    /// - `Store`: another process uses the file for 5 seconds, or the file can't be created, read
    ///   or written, or is damaged. Also returned if the tables are not those of the schema number,
    ///   1 or 2, except in the second case of `UnknownSchema`. Also returned if `file` is
    ///   `:memory:` or a URI, or is mounted as a single file. Also returned if `start` is `None`,
    ///   or if the system provides no random number.
    /// - `UnknownSchema`: the schema number is neither 1 nor 2, or is missing in a file without the
    ///   tables of schema 2. Also returned if the tables are those of schema 2, but the schema
    ///   number is 1.
    pub fn open(
        rt: &HostRuntime,
        file: &Text,
        access: Access,
        start: Option<S>,
    ) -> Result<Self, (StoreFault, Result<Leftover<FileFrom<S>>, Option<S>>)>
        ensures opened { IfOk result (RepresentsImage (image_at S.Start)) }
        ensures due { IfErr result (λ e. IsDatabaseFault e.0 ⊎ (e.0 ≡ StoreFault.UnknownSchema)) }
        // Before the open, a crash leaves the initial content.
        ensures left { IfErr result (λ e. IfOk e.1 (λ left.
            FailsToOpen (λ after. after ≡ image_at S.Start) (image_at S.Start) left e.0)) }
        ensures unopened { IfErr result (λ e. IfErr e.1 (λ back. is_some back ≡ is_some start)) }
    {
        let options = match store_options_for_path(rt, file, access) {
            Ok(options) => options,
            Err(failure) => return Err((StoreFault::from(failure), Err(start))),
        };
        let start = match require_present(start) {
            Ok(start) => start,
            Err(failure) => return Err((StoreFault::from(failure), Err(None))),
        };
        let files = match open_files(rt, file, start) {
            Ok(files) => files,
            Err((fault, start)) => return Err((fault, Err(Some(start)))),
        };
        match open_results(rt.alloc(), files, options) {
            Ok(it) => Ok(it),
            Err((fault, left)) => Err((fault, Ok(left))),
        }
    }
}

impl<S: Alter> StoreSpec for RunsFile<S> {
    ghost use Rattle.kt_dbfile.specs.Common.{AreNumbered, AreOrdered, IsSchema2OfOne, HasCommitted, StaysNumbered};
    ghost use Rattle.sqlite_trees.specs.Tree.{Trees};
    ghost use Rattle.sqlite_trees.specs.View.{IsClean};

    // No call changes whether the trees are numbered.
    ghost answers = { λ old _ new. StaysNumbered (S.Store.view old) (S.Store.view new) };

    ghost stands = { λ s runs. HasCommitted (S.Store.view s) runs × AreNumbered 1 runs
        × (IsClean (S.Store.view s) → AreOrdered runs) };

    ghost sound = { λ s. IsClean (S.Store.view s) };

    ghost leaves = { λ s may. IsClean (S.Store.view s) → (trees : Trees)
        → S.Store.recovers s trees → IsSchema2OfOne may trees };

    ghost numbered = { λ s runs h. h.1 };

    ghost ordered = { λ s runs h sound. h.2 sound };
}

impl<S: Alter> ResultStore for RunsFile<S> {
    fn begin(&mut self, total: u32, moment: u64) -> Result<u64, StoreFault> {
        let written = self.trees.write_run(&self.schema, total, moment);
        self.trees.end_transaction(written)
    }

    fn put(&mut self, run: u64, entry: &Entry) -> Result<(), StoreFault> {
        let written = self.trees.write_entry(&self.schema, run, entry);
        self.trees.end_transaction(written)
    }

    fn finish(&mut self, run: u64) -> Result<(), StoreFault> {
        let written = self.trees.mark_run_finished(&self.schema, run);
        self.trees.end_transaction(written)
    }

    fn head(&mut self, number: Option<u64>) -> Result<Option<RunHead>, StoreFault> {
        self.trees.read_head(number)
    }

    fn outline(&mut self, run: u64) -> Result<Vec<Entry>, StoreFault> {
        self.trees.read_run_outline(run)
    }

    fn properties(&mut self, run: u64, position: u32) -> Result<Variables, StoreFault> {
        self.trees.find_properties(run, position)
    }

    fn outputs(&mut self, run: u64, position: u32) -> Result<CaseOutputs, StoreFault> {
        self.trees.find_outputs(run, position)
    }
}
