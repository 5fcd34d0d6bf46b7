use crate::attach::create_or_adopt_tables;
use crate::entries::read_all_entries;
use crate::heads::{read_heads, select_head};
use crate::lookup::run_key;
use crate::put::{add_entry, check_can_put, copy_reason_text};
use crate::run_rows::{self, add_run, is_store_full, mark_finished};
use crate::{RunHead, StoreFault};
use kt_base::Entry;
use sqlite::{Alter, Connection};
use std::alloc::Global;
use std::marker::Model;

/// A store of recorded runs in the tables of an SQLite database (docs/formats/store.md).
///
/// The program opens a file as `Results` if its tables don't have schema 2: a new file or one of
/// schema 1. The program then reads and writes the file as a `RunsFile` (kt_dbfile). In contracts,
/// the value of a `Results` is its connection. The clauses about runs hold while the disk returns
/// the data that was written, no other process writes the database, and the connection is open.
#[derive(Drop)]
pub struct Results<S: Alter> {
    /// The connection to the database.
    conn: Connection<S>,
    /// The allocator for the entries and heads that the store returns.
    alloc: Global,
}

impl<S: Alter> Model for Results<S> {
    ghost use Rattle.sqlite.specs.Held.{Held, held_code};

    ghost Value = { Held S };

    ghost coded = { held_code S.code };

    ghost view = { λ r. r.conn };
}

impl<S: Alter> Results<S> {
    ghost use Rattle.std.specs.Prelude.{◌≡◌, ◌⊎◌, Some, None, IfOk, IfErr, IfSome, map};
    ghost use Rattle.kt_store.specs.Common.{HoldsForRuns, state, AreNumberedFrom, IsMoment, IsNumbered, IsStorable, IsDatabaseFault, Describes, AttachSucceeds, AttachFails, Reads, Serves, Began, Put, Finished, Head, head_of, results_spec, run_at};

    /// Creates the tables of schema 2 in a database without tables, or migrates schema 1 to schema
    /// 2, in one commit. A database of schema 2 is only checked.
    ///
    /// # Errors
    ///
    /// The connection is returned with the error. For a database with other tables, the contract
    /// states only which errors are possible.
    ///
    /// - `UnknownSchema`: the schema number is missing or neither 1 nor 2.
    /// - `Store`: a statement failed, or the tables must be created or migrated while a transaction
    ///   is open.
    /// - `NoMemory`: memory ran out.
    pub fn attach(
        alloc: Global,
        connection: Connection<S>,
    ) -> Result<Results<S>, (StoreFault, Connection<S>)>
        ensures taken { (was : _) → Describes was (state S.Store connection)
            → IfOk result (λ r. AttachSucceeds was (state S.Store connection) (state S.Store r)) }
        ensures refused { (was : _) → Describes was (state S.Store connection)
            → IfErr result (λ e. AttachFails was (state S.Store connection) (state S.Store e.1)
            e.0) }
        // For any database, the error is `NoMemory`, `Store` or `UnknownSchema`.
        ensures due { IfErr result (λ e. IsDatabaseFault e.0 ⊎ (e.0 ≡ StoreFault.UnknownSchema)) }
    {
        let mut conn = connection;
        match create_or_adopt_tables(&mut conn) {
            Ok(()) => Ok(Results { conn, alloc }),
            Err(error) => Err((error, conn)),
        }
    }

    /// Converts the store into its allocator and its connection. Allocates nothing.
    pub fn into_parts(self) -> (Global, Connection<S>)
        ensures { result.1 ≡ self }
    {
        let Results { conn, alloc } = self;
        (alloc, conn)
    }

    /// Converts the store into its connection. Allocates nothing.
    pub fn detach(self) -> Connection<S>
        ensures { result ≡ self }
    {
        let Results { conn, alloc: _ } = self;
        conn
    }

    /// Adds an unfinished run of `total` cases, and returns the number of the run. `moment` is the
    /// start of the run, in milliseconds since 1970-01-01 UTC, up to the end of the year 9999.
    ///
    /// # Errors
    ///
    /// - `StoreFull`: there are 1,000,000 runs.
    /// - `Store`: a statement failed.
    /// - `NoMemory`: memory ran out.
    pub fn begin(&mut self, total: u32, moment: u64) -> Result<u64, StoreFault>
        requires { IsMoment moment }
        ensures { Serves (results_spec S.Store) (Began total moment result) self.old self.new }
    {
        if is_store_full(&mut self.conn)? {
            return Err(StoreFault::StoreFull);
        }
        Ok(add_run(&mut self.conn, total, moment)?)
    }

    /// Adds an entry and its properties to the run with the number `run`.
    ///
    /// # Errors
    ///
    /// The errors of [`ResultStore::put`](crate::ResultStore).
    pub fn put(&mut self, run: u64, entry: &Entry) -> Result<(), StoreFault>
        requires { IsStorable entry.now }
        ensures { Serves (results_spec S.Store) (Put run entry.now result) self.old self.new }
    {
        let reason = copy_reason_text(self.alloc, entry)?;
        check_can_put(&mut self.conn, run, entry)?;
        Ok(add_entry(&mut self.conn, run_key(run), entry, &reason)?)
    }

    /// Marks the run with the number `run` as finished. Entries can't be added to a finished run.
    ///
    /// # Errors
    ///
    /// The errors of [`ResultStore::finish`](crate::ResultStore).
    pub fn finish(&mut self, run: u64) -> Result<(), StoreFault>
        ensures { Serves (results_spec S.Store) (Finished run result) self.old self.new }
    {
        run_rows::check_can_finish(&mut self.conn, run)?;
        Ok(mark_finished(&mut self.conn, run_key(run))?)
    }

    /// Returns the heads of all runs, ordered by number. A head is a run without its entries.
    ///
    /// # Errors
    ///
    /// - `Store`: a statement failed, a row has a wrong value, or the runs are not numbered from 1.
    /// - `NoMemory`: memory ran out.
    pub fn runs(&mut self) -> Result<Vec<RunHead>, StoreFault>
        ensures reads { Reads (results_spec S.Store) self.old self.new }
        ensures heads { HoldsForRuns S.Store self.old self.new (λ runs.
            IfOk result (λ heads. heads.items ≡ map head_of runs)) }
        ensures failed { IfErr result IsDatabaseFault }
    {
        Ok(read_heads(&mut self.conn, self.alloc)?)
    }

    /// Returns the head of run `number`, or of the last run if `number` is `None`. A head is a run
    /// without its entries. Returns `None` if there is no such run.
    ///
    /// # Errors
    ///
    /// The errors of [`Results::runs`].
    pub fn head(&mut self, number: Option<u64>) -> Result<Option<RunHead>, StoreFault>
        ensures served { Serves (results_spec S.Store) (Head number result) self.old self.new }
        // Holds for any tables: the returned head has the requested number.
        ensures numbered { IfOk result (λ found. IfSome found (IsNumbered number)) }
        ensures failed { IfErr result IsDatabaseFault }
    {
        let heads = self.runs()?;
        Ok(select_head(&heads, number))
    }

    /// Returns the entries of the run with the number `run`, ordered by position, with their
    /// properties and outputs.
    ///
    /// # Errors
    ///
    /// - `NoRun`: no run has the number `run`.
    /// - `Store`: a statement failed, or a row has a wrong value.
    /// - `NoMemory`: memory ran out.
    pub fn entries(&mut self, run: u64) -> Result<Vec<Entry>, StoreFault>
        ensures reads { Reads (results_spec S.Store) self.old self.new }
        ensures entries { HoldsForRuns S.Store self.old self.new (λ runs.
            IfOk result (λ found. (r : _) × (run_at runs run ≡ Some r)
            × (found.items ≡ r.entries))) }
        ensures refused { HoldsForRuns S.Store self.old self.new (λ runs.
            IfErr result (λ e. IsDatabaseFault e ⊎ ((e ≡ StoreFault.NoRun)
            × (run_at runs run ≡ None)))) }
    {
        read_all_entries(&mut self.conn, self.alloc, run)
    }
}
