use crate::StoreFault;
use kt_base::{Entry, Output, Variables};

/// A head of a run: the run without its entries.
#[derive(Clone, Copy)]
pub struct RunHead {
    /// The number of the run, from 1.
    pub number: u64,
    /// The start of the run, in milliseconds since 1970-01-01 UTC.
    pub started: u64,
    /// The number of the run's selected cases, called its total.
    pub total: u32,
    /// `true` if the run is finished: each selected case has an entry, and no entry can be added.
    pub finished: bool,
}

/// The outputs of a test case's body and cleanup.
#[derive(Drop)]
pub struct CaseOutputs {
    /// The output of the test case's body.
    pub body: Output,
    /// The output of the test case's cleanup, empty if no cleanup was started.
    pub cleanup: Output,
}

/// Specification of a store: the runs that it represents, and the runs that a crash may leave.
pub trait StoreSpec {
    ghost use Rattle.std.specs.Prelude.{List};
    ghost use Rattle.kt_base.specs.declared.entry.Run.{Run};
    ghost use Rattle.kt_store.specs.Runs.{AreNumbered, AreOrdered};
    ghost use Rattle.kt_store.specs.StoreCalls.{StoreCall};

    /// `answers old call new`: `call`, a call with its result, may change the store from `old` to
    /// `new`. Each call meets this relation, even if the store has returned wrong data.
    ghost answers: { Self → StoreCall → Self → Type 0 };

    /// `stands store runs`: `store` represents `runs`.
    ghost stands: { Self → List Run → Type 0 };

    /// `sound store`: so far, `store` has returned exactly the data that was written.
    ghost sound: { Self → Type 0 };

    /// `leaves store lists`: a crash in the state `store` leaves a results file with the runs of
    /// one of `lists`.
    ghost leaves: { Self → List (List Run) → Type 0 };

    /// The runs that a store represents are numbered 1, 2, 3 and so on, in their order.
    ghost numbered: { (s : Self) (runs : List Run) → Self.stands s runs → AreNumbered 1 runs };

    /// If the store has returned exactly the data that was written, the entries of each run ascend
    /// by position without a repetition.
    ghost ordered: { (s : Self) (runs : List Run) → Self.stands s runs → Self.sound s
        → AreOrdered runs };
}

/// An interface to a store of recorded runs.
///
/// A failed call changes nothing, but after a crash its change may be present. If the store is
/// sound, each call returns the data of the represented runs. A store is sound while it returns
/// exactly the data that was written.
pub trait ResultStore: StoreSpec {
    ghost use Rattle.std.specs.Prelude.{IfErr, IfOk, IfSome};
    ghost use Rattle.kt_store.specs.Common.{IsMoment, IsNumbered, IsStorable, IsDatabaseFault, Serves, Began, Put, Finished, Head, Outline, Pairs, Outputs, map_success};

    /// Adds an unfinished run of `total` cases, and returns the number of the run. `moment` is the
    /// start of the run, in milliseconds since 1970-01-01 UTC, up to the end of the year 9999.
    ///
    /// # Errors
    ///
    /// - `StoreFull`: there are 1,000,000 runs.
    /// - `NoMemory`: memory ran out.
    /// - `Store`: the database failed.
    fn begin(&mut self, total: u32, moment: u64) -> Result<u64, StoreFault>
        requires { IsMoment moment }
        ensures { Serves Self.StoreSpec (Began total moment result) self.old self.new };

    /// Adds an entry and its properties to the run with the number `run`. The entry's start is in
    /// milliseconds since 1970-01-01 UTC, up to the end of the year 9999. Its duration is in
    /// milliseconds, with the same maximum.
    ///
    /// # Errors
    ///
    /// The first of these that applies:
    ///
    /// - `NoRun`: no run has the number `run`.
    /// - `RunClosed`: the run is finished.
    /// - `BadPosition`: the entry's position is not below the run's number of selected cases.
    /// - `RepeatedPosition`: the run has an entry at the entry's position.
    ///
    /// `NoMemory` (memory ran out) or `Store` (the database failed) may be returned instead.
    fn put(&mut self, run: u64, entry: &Entry) -> Result<(), StoreFault>
        requires { IsStorable entry.now }
        ensures { Serves Self.StoreSpec (Put run entry.now result) self.old self.new };

    /// Marks the run with the number `run` as finished. Entries can't be added to a finished run.
    ///
    /// # Errors
    ///
    /// The first of these that applies:
    ///
    /// - `NoRun`: no run has the number `run`.
    /// - `RunClosed`: the run is finished already.
    /// - `Incomplete`: the run has fewer entries than selected cases.
    ///
    /// `NoMemory` (memory ran out) or `Store` (the database failed) may be returned instead.
    fn finish(&mut self, run: u64) -> Result<(), StoreFault>
        ensures { Serves Self.StoreSpec (Finished run result) self.old self.new };

    /// Returns the head of run `number`, or of the last run if `number` is `None`. A head is a run
    /// without its entries. Returns `None` if there is no such run.
    ///
    /// # Errors
    ///
    /// - `NoMemory`: memory ran out.
    /// - `Store`: the database failed.
    fn head(&mut self, number: Option<u64>) -> Result<Option<RunHead>, StoreFault>
        ensures served { Serves Self.StoreSpec (Head number result) self.old self.new }
        // Holds even if the store returns wrong data: the returned head has the requested number.
        ensures numbered { IfOk result (λ found. IfSome found (IsNumbered number)) }
        ensures failed { IfErr result IsDatabaseFault };

    /// Returns the entries of the run with the number `run`, ordered by position, without their
    /// properties and outputs.
    ///
    /// # Errors
    ///
    /// - `NoRun`: no run has the number `run`.
    /// - `NoMemory`: memory ran out.
    /// - `Store`: the database failed.
    fn outline(&mut self, run: u64) -> Result<Vec<Entry>, StoreFault>
        ensures { Serves Self.StoreSpec (Outline run (map_success (λ found. found.items) result))
            self.old self.new };

    /// Returns the properties of the entry at `position` of run `run`, in their recorded order.
    /// Returns no properties if there is no such run or entry.
    ///
    /// # Errors
    ///
    /// - `NoMemory`: memory ran out.
    /// - `Store`: the database failed.
    fn properties(&mut self, run: u64, position: u32) -> Result<Variables, StoreFault>
        ensures { Serves Self.StoreSpec (Pairs run position result) self.old self.new };

    /// Returns the outputs of the body and the cleanup of the entry at `position` of the run with
    /// the number `run`.
    ///
    /// # Errors
    ///
    /// - `NoRun`: no run has the number `run`, or the run has no entry at `position`.
    /// - `NoMemory`: memory ran out.
    /// - `Store`: the database failed.
    fn outputs(&mut self, run: u64, position: u32) -> Result<CaseOutputs, StoreFault>
        ensures { Serves Self.StoreSpec (Outputs run position result) self.old self.new };
}
