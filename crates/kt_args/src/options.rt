use kt_base::{Items, Text};
use kt_suite::Kyuafile;

/// The values of the options and arguments that `list`, `test` and `debug` share (kyua(1)).
pub struct CaseOptions {
    /// The path of the configuration file (`-c`), or `None` if the option is not given.
    pub config: Option<Text>,
    /// The arguments `NAME=VALUE` of `-v`, in order.
    pub variables: Items<Text>,
    /// The path of the root Kyuafile (`-k`). Its directory is the root of the tree of test
    /// programs.
    pub kyuafile: Kyuafile,
    /// The path of the directory in which the runner creates its work directories (`--work`).
    pub work: Text,
    /// The arguments `FILTER` in order, or the argument `PROGRAM:CASE` of `debug`. They are copied
    /// from the command line and not parsed yet.
    pub filters: Items<Text>,
}

/// A manual impl instead of `#[derive(Drop)]`, so that the prover handles each drop as one call.
impl Drop for CaseOptions {
    fn drop(self) {
        let CaseOptions {
            config: _,
            variables: _,
            kyuafile: _,
            work: _,
            filters: _,
        } = self;
    }
}

/// The values of the options that `report` and `report-junit` share (kyua(1)).
pub struct ReportOptions {
    /// The path of the configuration file (`-c`), or `None` if the option is not given. Reports
    /// ignore the file.
    pub config: Option<Text>,
    /// The arguments `NAME=VALUE` of `-v`, in order. Reports ignore them.
    pub variables: Items<Text>,
    /// The path of the results file (`-r`).
    pub results: Text,
    /// The number of the run to show (`--run`), 1 to 1,000,000, or `None` for the last run.
    pub run: Option<u64>,
}

/// A manual impl instead of `#[derive(Drop)]`, so that the prover handles each drop as one call.
impl Drop for ReportOptions {
    fn drop(self) {
        let ReportOptions {
            config: _,
            variables: _,
            results: _,
            run: _,
        } = self;
    }
}
