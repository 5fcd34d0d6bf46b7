use kt_base::{Entry, OUT_OF_MEMORY};
use thiserror::Error;

/// Errors returned by [`Sink::put`].
#[derive(Clone, Copy, Debug, Error)]
#[error("{}", self.message())]
pub enum SinkFault {
    /// An allocation failed.
    Memory,
    /// The results store failed for another cause than an allocation.
    Other,
}

impl SinkFault {
    ghost use Rattle.std.specs.Prelude.{◌≡◌};
    ghost use Rattle.kt_sched.specs.FaultMessages.{sink_message};

    /// Returns the message of the error, which `Display` prints (this profile).
    pub fn message(&self) -> &'static str
        ensures { result.now ≡ sink_message self.now }
    {
        match self {
            SinkFault::Memory => OUT_OF_MEMORY,
            SinkFault::Other => "results store failed",
        }
    }
}

/// An interface to record the entries of a run, one after the other.
///
/// A failed put doesn't change the entries that were put before.
pub trait Sink {
    ghost use Rattle.std.specs.Prelude.{Result, OnErr, OnOk, ◌++◌, [], ◌∷◌, List};
    ghost use Rattle.kt_base.specs.declared.entry.Entry.{Entry};
    ghost use Rattle.kt_sched.specs.declared.sink.SinkFault.{SinkFault};
    ghost use Rattle.kt_base.specs.Moments.{IsStorable};

    /// The relation of a sink to the entries that were put into it, in the order of the puts.
    ghost entries: { Self → List Entry → Type 0 };

    /// The relation of the sink's states before and after a put of an entry, and of the result of
    /// the put.
    ghost puts: { Self → Entry → Result (Unit {0}) SinkFault → Self → Type 0 };

    /// Records `entry` after the entries that were put before.
    ///
    /// The start time and the duration of the entry, in milliseconds, must be at most
    /// 253,402,300,799,999. As a start time, this is the last millisecond of the year 9999.
    ///
    /// # Errors
    ///
    /// - `Memory`: an allocation fails.
    /// - `Other`: the results store fails.
    fn put(&mut self, entry: Entry) -> Result<(), SinkFault>
        requires { IsStorable entry }
        ensures leads { puts self.old entry result self.new }
        ensures ok { (put : List Entry) → entries self.old put
            → OnOk result (entries self.new (put ++ entry ∷ [])) }
        ensures err { (put : List Entry) → entries self.old put
            → OnErr result (entries self.new put) };
}
