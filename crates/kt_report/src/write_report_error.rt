ghost use Rattle.std.specs.Prelude.{◌≡◌};
ghost use Rattle.kt_report.specs.declared.report_fault.ReportFault.TheVariants as fault;
ghost use Rattle.kt_report.specs.declared.write_report_error.WriteReportError.TheVariants as stop;

use crate::ReportFault;
use kt_base::OutputFault;

/// Errors returned by [`write_text_report`] and [`write_junit_report`].
#[derive(Clone, Copy)]
pub enum WriteReportError<F, E> {
    /// The properties or the outputs of an entry could not be read.
    Details(F),
    /// A write or an allocation failed.
    Report(E),
}

impl<F> From<OutputFault> for WriteReportError<F, ReportFault> {
    ghost from_gives = { λ refusal e. e ≡ stop.Report (fault.Output refusal) };

    fn from(refusal: OutputFault) -> WriteReportError<F, ReportFault> {
        WriteReportError::Report(ReportFault::Output(refusal))
    }
}

impl<F> From<OutputFault> for WriteReportError<F, OutputFault> {
    ghost from_gives = { λ refusal e. e ≡ stop.Report refusal };

    fn from(refusal: OutputFault) -> WriteReportError<F, OutputFault> {
        WriteReportError::Report(refusal)
    }
}
