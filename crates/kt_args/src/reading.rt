ghost use Rattle.std.specs.Prelude.{◌≡◌, drop, map, chars, codes, option_map, IfOk, IfErr, IsErrAnd};
ghost use Rattle.kt_args.specs.Common.{string_bytes, into_iter_items, all_of, first_of, found_of, rows_of, subcommand_rows_of, error_kind, OutOfMemory, HasValidRun, ParsesCommand, IsArgsFault, command_in, command_named, is_true, junit_in, kinds_option, case_options_in, report_in, report_options, results_path, run_option, option_text, option_text_or_default, option_texts, IsResultOrNoMemory, ParsesRun, ParsesKinds};

use crate::arguments::{DEFAULT_KYUAFILE, DEFAULT_RESULTS_FILE, DEFAULT_WORK_DIR, kyua_command};
use crate::filter::{default_kinds, parse_kinds};
use crate::numbers::parse_run_number;
use crate::{CaseOptions, Command, CommandFault, ReportOptions};
use clap::ArgMatches;
use clap::error::ErrorKind;
use kt_base::{Items, Kind, NoMemory, Text};
use kt_suite::Kyuafile;
use std::alloc::Global;
use std::env::Args;
use std::io;

/// The message for arguments that are not UTF-8, as `clap` prints it.
const INVALID_UTF8: &str = "invalid UTF-8 was detected in one or more arguments";

/// Returns the first value of the option `name` in `matches`, or `None` if the option has no value.
///
/// `matches` has the values that `clap` found. `name` is the name under which `clap` stores the
/// value.
fn option_value<'a>(matches: &ArgMatches<'a>, name: &str) -> Option<&'a str>
    ensures { option_map (λ word. word.now) result
        ≡ first_of name.now (rows_of (found_of matches.now)) }
{
    matches.get_str(name)
}

/// Returns all values of the option or argument `name` in `matches`, in order.
///
/// `matches` has the values that `clap` found. `name` is the name under which `clap` stores the
/// values. Returns `None` if the option or argument has no value.
fn option_values<'b, 'a>(matches: &'b ArgMatches<'a>, name: &str) -> Option<&'b [&'a str]>
    ensures { option_map (λ words. map (λ word. word.now) words.now) result
        ≡ all_of name.now (rows_of (found_of matches.now)) }
{
    matches.get_strs(name)
}

/// Returns the first value of the option `name` in `matches`, or the default `instead` if the option
/// has no value.
///
/// `matches` has the values that `clap` found. `clap` has the same default: it prints the default
/// in its help, and uses it as the value of a missing option. That `clap` uses it for each option
/// is not proved, so this function applies the default, too.
fn option_or_default<'a>(matches: &ArgMatches<'a>, name: &str, instead: &'a str) -> &'a str
    ensures { chars result.now
        ≡ option_text_or_default instead.now name.now (rows_of (found_of matches.now)) }
{
    option_value(matches, name).unwrap_or(instead)
}

/// Returns a copy of the first value of the option `name` in `matches`, or `None` if the option has
/// no value.
///
/// `matches` has the values that `clap` found.
fn option_text<'a>(
    alloc: Global,
    matches: &ArgMatches<'a>,
    name: &str,
) -> Result<Option<Text>, NoMemory>
    ensures { IfOk result (λ text. text ≡ option_text name.now (rows_of (found_of matches.now))) }
{
    match option_value(matches, name) {
        None => Ok(None),
        Some(word) => Ok(Some(Text::from_str(alloc, word)?)),
    }
}

/// Returns copies of the arguments `words`, in order.
fn copy_texts(alloc: Global, words: &[&str]) -> Result<Items<Text>, NoMemory>
    ensures { IfOk result (λ texts. texts ≡ map (λ word. chars word.now) words.now) }
{
    let mut texts = Items::new(alloc);
    for word in words {
        texts.push(Text::from_str(alloc, word)?)?;
    }
    Ok(texts)
}

/// Returns copies of all values of the option or argument `name` in `matches`, in order.
///
/// `matches` has the values that `clap` found. The result is empty if the option or argument has no
/// value.
fn option_texts<'a>(
    alloc: Global,
    matches: &ArgMatches<'a>,
    name: &str,
) -> Result<Items<Text>, NoMemory>
    ensures { IfOk result (λ texts. texts ≡ option_texts name.now (rows_of (found_of matches.now))) }
{
    match option_values(matches, name) {
        None => Ok(Items::new(alloc)),
        Some(words) => copy_texts(alloc, words),
    }
}

/// Parses the value of `--run` in `matches` as a run number, or returns `None` if the option is not
/// given.
///
/// Fails with `BadRun` if the value is not a run number.
fn parse_run_option<'a>(matches: &ArgMatches<'a>) -> Result<Option<u64>, CommandFault>
    ensures { ParsesRun (run_option (first_of (codes "run") (rows_of (found_of matches.now))))
        result }
{
    let Some(word) = option_value(matches, "run") else {
        return Ok(None);
    };
    match parse_run_number(word.as_bytes()) {
        Some(number) => Ok(Some(number)),
        None => Err(CommandFault::BadRun),
    }
}

/// Parses the value of `--results-filter` in `matches` as kinds of verdicts.
///
/// Returns the default kinds if the option is not given. Fails with `BadKind` if an element of the
/// value does not name a kind.
fn parse_kinds_option<'a>(
    alloc: Global,
    matches: &ArgMatches<'a>,
) -> Result<Items<Kind>, CommandFault>
    ensures { ParsesKinds (kinds_option (first_of (codes "kinds") (rows_of (found_of matches.now))))
        result }
{
    match option_value(matches, "kinds") {
        Some(words) => {
            let kinds = parse_kinds(alloc, words.as_bytes())?;
            Ok(kinds)
        }
        None => Ok(default_kinds(alloc)?),
    }
}

/// Returns `true` if `--verbose` is given.
fn is_verbose<'a>(matches: &ArgMatches<'a>) -> bool
    ensures { result ≡ is_true (first_of (codes "verbose") (rows_of (found_of matches.now))) }
{
    match option_value(matches, "verbose") {
        None => false,
        Some(word) => word == "true",
    }
}

/// Returns the values of the options and arguments that `list`, `test` and `debug` share.
///
/// `before` has the values before the command's name (`-c` and `-v`). `own` has the values after
/// this name.
fn parse_case_options<'a>(
    alloc: Global,
    before: &ArgMatches<'a>,
    own: &ArgMatches<'a>,
) -> Result<CaseOptions, NoMemory>
    ensures { IfOk result (λ options.
        options ≡ case_options_in (rows_of (found_of before.now)) (rows_of (found_of own.now))) }
{
    let config = option_text(alloc, before, "config")?;
    let variables = option_texts(alloc, before, "variables")?;
    let kyuafile = Kyuafile::new(alloc, option_or_default(own, "kyuafile", DEFAULT_KYUAFILE))?;
    let work = Text::from_str(alloc, option_or_default(own, "work", DEFAULT_WORK_DIR))?;
    let filters = option_texts(alloc, own, "filters")?;
    Ok(CaseOptions {
        config,
        variables,
        kyuafile,
        work,
        filters,
    })
}

/// Returns the path of the results file (`-r`) in `own`, the values after the command's name, or
/// the default path `kyua.db`.
fn parse_results_path<'a>(alloc: Global, own: &ArgMatches<'a>) -> Result<Text, NoMemory>
    ensures { IfOk result (λ text. text ≡ results_path (rows_of (found_of own.now))) }
{
    Text::from_str(
        alloc,
        option_or_default(own, "results", DEFAULT_RESULTS_FILE),
    )
}

/// Returns the values of the options that `report` and `report-junit` share.
///
/// `before` has the values before the command's name (`-c` and `-v`). `own` has the values after
/// this name. `run` is the run number, or `None` if it is not given.
fn parse_report_options<'a>(
    alloc: Global,
    before: &ArgMatches<'a>,
    own: &ArgMatches<'a>,
    run: Option<u64>,
) -> Result<ReportOptions, NoMemory>
    ensures { IfOk result (λ options.
        options ≡ report_options (rows_of (found_of before.now)) (rows_of (found_of own.now)) run) }
{
    let config = option_text(alloc, before, "config")?;
    let variables = option_texts(alloc, before, "variables")?;
    let results = parse_results_path(alloc, own)?;
    Ok(ReportOptions {
        config,
        variables,
        results,
        run,
    })
}

/// Returns the command `report` with the values of its options.
///
/// `before` has the values before the command's name, and `own` has the values after this name.
/// Fails with `BadKind` if the results filter is wrong, and otherwise with `BadRun` if the run
/// number is wrong.
fn parse_report_command<'a>(
    alloc: Global,
    before: &ArgMatches<'a>,
    own: &ArgMatches<'a>,
) -> Result<Command, CommandFault>
    ensures { IsResultOrNoMemory (report_in (rows_of (found_of before.now)) (rows_of (found_of own.now)))
        result }
{
    let kinds = parse_kinds_option(alloc, own)?;
    let run = parse_run_option(own)?;
    let options = parse_report_options(alloc, before, own, run)?;
    Ok(Command::Report {
        options,
        kinds,
        verbose: is_verbose(own),
    })
}

/// Returns the command `report-junit` with the values of its options.
///
/// `before` has the values before the command's name, and `own` has the values after this name.
/// Fails with `BadRun` if the run number is wrong.
fn parse_junit_command<'a>(
    alloc: Global,
    before: &ArgMatches<'a>,
    own: &ArgMatches<'a>,
) -> Result<Command, CommandFault>
    ensures { IsResultOrNoMemory (junit_in (rows_of (found_of before.now)) (rows_of (found_of own.now)))
        result }
{
    let run = parse_run_option(own)?;
    let options = parse_report_options(alloc, before, own, run)?;
    Ok(Command::ReportJunit(options))
}

/// Returns the command `name` with the values of its options and arguments.
///
/// `before` has the values before the command's name, and `own` has the values after this name.
/// Fails with `BadKind` or `BadRun` if the value of an option is wrong. Fails with `Usage` and an
/// empty text if `name` is not a command. This does not happen, because `clap` rejects such a name
/// first.
fn parse_subcommand<'a>(
    alloc: Global,
    before: &ArgMatches<'a>,
    name: &str,
    own: &ArgMatches<'a>,
) -> Result<Command, CommandFault>
    ensures { IsResultOrNoMemory (command_named (rows_of (found_of before.now)) name.now
        (rows_of (found_of own.now))) result }
{
    if name == "list" {
        let options = parse_case_options(alloc, before, own)?;
        return Ok(Command::List(options));
    }
    if name == "test" {
        let options = parse_case_options(alloc, before, own)?;
        let results = parse_results_path(alloc, own)?;
        return Ok(Command::Test { options, results });
    }
    if name == "debug" {
        let options = parse_case_options(alloc, before, own)?;
        return Ok(Command::Debug(options));
    }
    if name == "report" {
        return parse_report_command(alloc, before, own);
    }
    if name == "report-junit" {
        return parse_junit_command(alloc, before, own);
    }
    Err(CommandFault::Usage(Text::new(alloc)))
}

/// Returns the name of the command in `matches`, and the values of the options and arguments after
/// this name.
///
/// Returns `None` if there is no command.
fn get_subcommand<'b, 'a>(matches: &'b ArgMatches<'a>) -> Option<(&'a str, &'b ArgMatches<'a>)>
    ensures { option_map (λ entered. (entered.0.now, rows_of (found_of entered.1.now))) result
        ≡ subcommand_rows_of matches.now }
{
    matches.subcommand()
}

/// Returns the command in `matches`, with the values of its options and arguments.
///
/// Fails with `BadKind` or `BadRun` if the value of an option is wrong. Fails with `Usage` and an
/// empty text if there is no command. This does not happen, because `clap` rejects such a command
/// line first.
fn parse_matches<'a>(alloc: Global, matches: &ArgMatches<'a>) -> Result<Command, CommandFault>
    ensures { IsResultOrNoMemory (command_in (rows_of (found_of matches.now))
        (subcommand_rows_of matches.now)) result }
{
    match get_subcommand(matches) {
        None => Err(CommandFault::Usage(Text::new(alloc))),
        Some((name, own)) => parse_subcommand(alloc, matches, name, own),
    }
}

/// Parses `words`, the arguments after the program's own name, as a command of kyua(1).
///
/// The command parses its variables, filters and paths when it runs. They are not parsed here, and
/// may be empty. A missing option gets its default (this profile). A report without `--run` has no
/// run number, because the last run is known only when the results file is open.
///
/// # Errors
///
/// `Usage` is checked first, then `BadKind`, then `BadRun`.
///
/// - `Usage`: the arguments are not a command line of kyua(1), or `--help` is given.
/// - `BadKind`: an element of the results filter is not `passed`, `skipped`, `xfail`, `broken` or
///   `failed`.
/// - `BadRun`: the run number is not a decimal number from 1 to 1,000,000.
/// - `NoMemory`: an allocation fails.
pub fn read_command<'a>(alloc: Global, words: &'a [String]) -> Result<Command, CommandFault>
    ensures value { ParsesCommand (map (λ word. string_bytes word) words.entry.now) result }
    ensures range { IfOk result HasValidRun }
{
    let line = kyua_command(alloc)?;
    match line.try_get_matches_from(words) {
        Ok(matches) => parse_matches(alloc, &matches),
        Err(error) => Err(CommandFault::from_clap(alloc, error)),
    }
}

/// Creates the error for arguments that are not UTF-8: `Usage` with a message in `clap`'s form.
fn utf8_error(alloc: Global) -> Result<CommandFault, NoMemory>
    ensures { IfOk result (λ fault. IsArgsFault ⊥ fault) }
{
    let mut command = kyua_command(alloc)?;
    let error = command.error(ErrorKind::ValueValidation, INVALID_UTF8)?;
    Ok(CommandFault::from_clap(alloc, error))
}

/// Creates the error for arguments that are not UTF-8, or `NoMemory` if an allocation fails.
fn utf8_or_memory_error(alloc: Global) -> CommandFault
    ensures { IsArgsFault ⊥ result }
{
    match utf8_error(alloc) {
        Ok(fault) => fault,
        Err(refusal) => CommandFault::from(refusal),
    }
}

/// Converts `error`, an error of reading the arguments of the process, to a `CommandFault`.
///
/// Returns `NoMemory` if `error` is a failed allocation, or if an allocation here fails. Otherwise
/// returns the error for arguments that are not UTF-8.
fn args_error(alloc: Global, error: &io::Error) -> CommandFault
    ensures { IsArgsFault (error_kind error.now ≡ OutOfMemory) result }
{
    match NoMemory::from_io_error(error) {
        Some(refusal) => CommandFault::from(refusal),
        None => utf8_or_memory_error(alloc),
    }
}

/// Parses `words`, the arguments of the process, as a command of kyua(1).
///
/// The first argument, the program's own name, is skipped.
///
/// # Errors
///
/// `Usage` is checked first, then `BadKind`, then `BadRun`.
///
/// - `Usage`: an argument is not UTF-8, the arguments are not a command line of kyua(1), or
///   `--help` is given.
/// - `BadKind`: an element of the results filter is not `passed`, `skipped`, `xfail`, `broken` or
///   `failed`.
/// - `BadRun`: the run number is not a decimal number from 1 to 1,000,000.
/// - `NoMemory`: an allocation fails.
pub fn read_process_args(alloc: Global, words: io::Result<Args>) -> Result<Command, CommandFault>
    ensures value { IfOk words (λ all.
        ParsesCommand (map (λ word. string_bytes word) (drop 1 (into_iter_items all))) result) }
    ensures refused { IfErr words (λ e.
        IsErrAnd result (λ fault. IsArgsFault (error_kind e ≡ OutOfMemory) fault)) }
    ensures range { IfOk result HasValidRun }
{
    let words = match words {
        Ok(words) => words,
        Err(error) => return Err(args_error(alloc, &error)),
    };
    let words = match collect_args(alloc, words) {
        Ok(words) => words,
        Err(refusal) => return Err(CommandFault::from(refusal)),
    };
    match words.as_slice().split_first() {
        None => read_command(alloc, words.as_slice()),
        Some((_, own)) => read_command(alloc, own),
    }
}

/// Collects all arguments of the iterator `words` into a vector, in order.
fn collect_args(alloc: Global, words: Args) -> Result<Vec<String>, NoMemory>
    ensures { IfOk result (λ all. all.items ≡ into_iter_items words) }
{
    Ok(words.collect(alloc)?)
}
