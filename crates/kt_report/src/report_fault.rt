ghost use Rattle.std.specs.Prelude.{◌≡◌};
ghost use Rattle.kt_report.specs.declared.report_fault.ReportFault.TheVariants as fault;

use kt_base::{NoMemory, OutputFault};
use thiserror::Error;

/// Errors returned by [`junit`], and contained in the errors of `write_junit_report`.
///
/// If an error is returned, a proper prefix of the report was written. Each error contains its
/// cause, a failed allocation or a failed write.
#[derive(Clone, Copy, Debug, Error)]
#[error(transparent)]
pub enum ReportFault {
    /// An allocation failed.
    NoMemory(NoMemory),
    /// A write failed.
    Output(OutputFault),
}

impl From<NoMemory> for ReportFault {
    ghost from_gives = { λ refusal e. e ≡ fault.NoMemory refusal };

    fn from(refusal: NoMemory) -> ReportFault {
        ReportFault::NoMemory(refusal)
    }
}

impl From<OutputFault> for ReportFault {
    ghost from_gives = { λ refusal e. e ≡ fault.Output refusal };

    fn from(refusal: OutputFault) -> ReportFault {
        ReportFault::Output(refusal)
    }
}
