//! Writes the texts of a run: the line of an entry, the text report and the JUnit report.
#![tactic(auto)]

mod case_texts;
mod details;
mod entry_line;
mod escaping;
mod junit_report;
mod moments;
mod pairs;
mod report_fault;
mod sections;
mod summary;
mod text_report;
mod write_report_error;

pub use details::{DetailSource, EntryOutputs};
pub use entry_line::line;
pub use junit_report::{junit, write_junit_report};
pub use report_fault::ReportFault;
pub use text_report::{text, theorem_of_hidden_parts, write_text_report};
pub use write_report_error::WriteReportError;
