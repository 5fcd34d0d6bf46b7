use kt_base::{Entry, Variables};
use kt_report::{DetailSource, EntryOutputs};
use kt_store::{ResultStore, StoreFault};

/// A `DetailSource` that reads the properties and the outputs of a run's entries from a results
/// store.
#[derive(Drop)]
pub struct StoredDetails<'a, R> {
    /// The results store from which the properties and outputs are read.
    pub results: &'a mut R,
    /// The number of the run whose entries are read.
    pub number: u64,
}

impl<R: ResultStore> DetailSource for StoredDetails<'_, R> {
    ghost use Rattle.std.specs.Prelude.{◌≡◌};
    ghost use Rattle.kt_cli.specs.Common.{ReadsEntry, outputs_reading, pairs_reading};

    type Fault = StoreFault;

    ghost reads_pairs = { λ s e answer t. (t.results.ghost_name ≡ s.results.ghost_name)
        × (t.number ≡ s.number)
        × ReadsEntry R.StoreSpec pairs_reading s.number e s.results.now answer t.results.now };

    ghost reads_outputs = { λ s e answer t. (t.results.ghost_name ≡ s.results.ghost_name)
        × (t.number ≡ s.number)
        × ReadsEntry R.StoreSpec outputs_reading s.number e s.results.now answer t.results.now };

    fn properties(&mut self, entry: &Entry) -> Result<Option<Variables>, StoreFault> {
        let pairs = self.results.properties(self.number, entry.position)?;
        Ok(Some(pairs))
    }

    fn outputs(&mut self, entry: &Entry) -> Result<Option<EntryOutputs>, StoreFault> {
        let read = self.results.outputs(self.number, entry.position)?;
        Ok(Some(EntryOutputs {
            body: read.body,
            cleanup: read.cleanup,
        }))
    }
}
