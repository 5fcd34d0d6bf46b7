ghost use Rattle.std.specs.Prelude.{◌≡◌, is_err};
ghost use Rattle.kt_cli.specs.Common.{sink_fault_of, debug_bytes, WritesNext};

use kt_base::{Entry, OutputFault, emit_all};
use kt_report::line;
use kt_sched::{Sink, SinkFault};
use kt_store::{ResultStore, StoreFault};
use std::io::Write;

/// A `Sink` that puts each entry into run `number` of a results store, and then writes the entry's
/// result line.
#[derive(Drop)]
pub struct Recorder<'a, R, O> {
    /// The results store that gets the entries.
    pub results: &'a mut R,
    /// The writer of the command's output.
    pub out: &'a mut O,
    /// The number of the run into which entries are put.
    pub number: u64,
    /// The result of the writes to `out` so far. After an error nothing more is written, but
    /// entries are still put.
    pub written: Result<(), OutputFault>,
}

/// Converts a fault of the results store to the fault that a `Sink` returns to the scheduler.
pub fn convert_store_fault(fault: StoreFault) -> SinkFault
    ensures { result ≡ sink_fault_of fault }
{
    match fault {
        StoreFault::NoMemory(_) => SinkFault::Memory,
        _ => SinkFault::Other,
    }
}

impl<R: ResultStore, O: Write> Sink for Recorder<'_, R, O> {
    ghost use Rattle.std.specs.Prelude.{◌≡◌, is_err};
    ghost use Rattle.kt_cli.specs.Common.{RecordsEntry, recording, HasRecorded};

    ghost entries = { λ s put. HasRecorded R.stands s.number s.results.now put };

    ghost puts = { λ s e r t. (t.results.ghost_name ≡ s.results.ghost_name)
        × (t.out.ghost_name ≡ s.out.ghost_name) × RecordsEntry R.StoreSpec
        (recording s.results.now s.number (is_err s.written) (O.contents s.out.now)) e r
        (recording t.results.now t.number (is_err t.written) (O.contents t.out.now)) };

    fn put(&mut self, entry: Entry) -> Result<(), SinkFault> {
        // An entry whose line is printed must be recorded, so the put comes first.
        if let Err(fault) = self.results.put(self.number, &entry) {
            return Err(convert_store_fault(fault));
        }
        if self.written.is_err() {
            return Ok(());
        }
        self.written = line(&entry, self.out);
        Ok(())
    }
}

/// A `Sink` that prints the outputs of each case and then its result line. It stores no entries.
#[derive(Drop)]
pub struct Printer<'a, O> {
    /// The writer of the command's output.
    pub out: &'a mut O,
    /// The result of the writes to `out` so far. After an error nothing more is written.
    pub written: Result<(), OutputFault>,
}

/// Writes the outputs of the body and the cleanup of a case, and then its result line. If
/// `written`, the result of the earlier writes, is an error, writes nothing and returns this error.
fn write_entry<O: Write>(
    written: Result<(), OutputFault>,
    entry: &Entry,
    out: &mut O,
) -> Result<(), OutputFault>
    ensures { WritesNext (O.contents out.old) (is_err written) (O.contents out.new) (is_err result)
        (debug_bytes entry.now) }
{
    written?;
    let body = &entry.body;
    let cleanup = &entry.cleanup;
    emit_all(
        &[
            body.out.as_slice(),
            body.err.as_slice(),
            cleanup.out.as_slice(),
            cleanup.err.as_slice(),
        ],
        out,
    )?;
    line(entry, out)
}

impl<O: Write> Sink for Printer<'_, O> {
    ghost use Rattle.std.specs.Prelude.{◌≡◌, is_err};
    ghost use Rattle.kt_cli.specs.Common.{Prints};

    // The printer stores no entries, so this relation is trivial.
    ghost entries = { λ _ _. Unit {0} };

    ghost puts = { λ s e r t. (t.out.ghost_name ≡ s.out.ghost_name)
        × Prints (is_err s.written) (O.contents s.out.now) e r
        (is_err t.written) (O.contents t.out.now) };

    fn put(&mut self, entry: Entry) -> Result<(), SinkFault> {
        self.written = write_entry(self.written, &entry, self.out);
        Ok(())
    }
}
