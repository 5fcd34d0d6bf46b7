use kt_base::{Entry, Output, OutputFault, Variables};

/// A test case's outputs: those of its body and of its cleanup.
#[derive(Drop)]
pub struct EntryOutputs {
    /// The output of the test case's body.
    pub body: Output,
    /// The output of the test case's cleanup.
    pub cleanup: Output,
}

/// An interface to the properties and the outputs of entries, which a report reads one entry at a
/// time.
pub trait DetailSource {
    ghost use Rattle.std.specs.Prelude.{Result};
    ghost use Rattle.kt_base.specs.declared.entry.Entry.{Entry};
    ghost use Rattle.kt_report.specs.Details.{with_outputs_read, with_pairs_read};

    /// The error of a failed read of properties or outputs.
    type Fault: Copy;

    /// Specification of a read of properties. `reads_pairs old entry result new`: the read leads
    /// from the state `old` to `new`. `result` is `entry` with the properties that were read, or an
    /// error.
    ghost reads_pairs: { Self → Entry → Result Entry Self.Fault → Self → Type 0 };

    /// Specification of a read of outputs. `reads_outputs old entry result new`: the read leads
    /// from the state `old` to `new`. `result` is `entry` with the outputs that were read, or an
    /// error.
    ghost reads_outputs: { Self → Entry → Result Entry Self.Fault → Self → Type 0 };

    /// Reads the properties of `entry`. Returns `None` if `entry` itself contains them.
    ///
    /// # Errors
    ///
    /// - `Fault`: the read fails.
    fn properties(&mut self, entry: &Entry) -> Result<Option<Variables>, Self::Fault>
        ensures { reads_pairs self.old entry.now (with_pairs_read entry.now result) self.new };

    /// Reads the outputs of `entry`. Returns `None` if `entry` itself contains them.
    ///
    /// # Errors
    ///
    /// - `Fault`: the read fails.
    fn outputs(&mut self, entry: &Entry) -> Result<Option<EntryOutputs>, Self::Fault>
        ensures { reads_outputs self.old entry.now (with_outputs_read entry.now result) self.new };
}

/// A `DetailSource` that reads nothing, for entries that contain their properties and outputs.
#[derive(Drop)]
pub struct InlineDetails;

impl DetailSource for InlineDetails {
    ghost use Rattle.kt_report.specs.Details.{reads_nothing};

    // No read fails.
    type Fault = OutputFault;

    ghost reads_pairs = { reads_nothing };

    ghost reads_outputs = { reads_nothing };

    fn properties(&mut self, _entry: &Entry) -> Result<Option<Variables>, OutputFault> {
        Ok(None)
    }

    fn outputs(&mut self, _entry: &Entry) -> Result<Option<EntryOutputs>, OutputFault> {
        Ok(None)
    }
}
