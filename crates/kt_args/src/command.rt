use crate::{CaseOptions, ReportOptions};
use kt_base::{Items, Kind, Text};

/// A command of kyua(1), with the values of its options and arguments.
pub enum Command {
    /// `list`: lists test cases.
    List(CaseOptions),
    /// `test`: runs test cases and records their results in a file.
    Test {
        /// The options that `test` shares with `list` and `debug`.
        options: CaseOptions,
        /// The path of the results file (`-r`).
        results: Text,
    },
    /// `debug`: runs one test case and shows its output.
    Debug(CaseOptions),
    /// `report`: shows a recorded run as text.
    Report {
        /// The options that `report` shares with `report-junit`.
        options: ReportOptions,
        /// The kinds of verdicts whose cases are printed (`--results-filter`).
        kinds: Items<Kind>,
        /// `true` if the report prints the properties of each case after the line of the case
        /// (`--verbose`).
        verbose: bool,
    },
    /// `report-junit`: shows a recorded run as a JUnit report.
    ReportJunit(ReportOptions),
}

/// A manual impl instead of `#[derive(Drop)]`, so that the prover handles each drop as one call.
impl Drop for Command {
    fn drop(self) {
        match self {
            Command::List(_options) => {}
            Command::Debug(_options) => {}
            Command::Test {
                options: _options,
                results: _results,
            } => {}
            Command::Report {
                options: _options,
                kinds: _kinds,
                verbose: _verbose,
            } => {}
            Command::ReportJunit(_options) => {}
        }
    }
}

impl Command {
    ghost use Rattle.std.specs.Prelude.{◌≡◌};
    ghost use Rattle.kt_args.specs.Common.{adds_run, case_options_of, option_copied, results_file_of};

    /// Returns the options of `list`, `test` or `debug`, or `None` for a report.
    pub fn case_options(&self) -> Option<&CaseOptions>
        ensures { option_copied result ≡ case_options_of self.now }
    {
        match self {
            Command::List(options) | Command::Test { options, .. } | Command::Debug(options) => {
                Some(options)
            }
            Command::Report { .. } | Command::ReportJunit(_) => None,
        }
    }

    /// Returns `true` if the command is `test`, which adds a run to its results file.
    pub fn adds_run(&self) -> bool
        ensures { result ≡ adds_run self.now }
    {
        matches!(self, Command::Test { .. })
    }

    /// Returns the path of the results file that the command reads or writes.
    ///
    /// Returns `None` for `list` and `debug`, which use no results file.
    pub fn results_file(&self) -> Option<&Text>
        ensures { option_copied result ≡ results_file_of self.now }
    {
        match self {
            Command::Test { results, .. } => Some(results),
            Command::Report { options, .. } | Command::ReportJunit(options) => {
                Some(&options.results)
            }
            Command::List(_) | Command::Debug(_) => None,
        }
    }
}
