ghost use Rattle.std.specs.Prelude.{◌≡◌, Ok, IfOk, false};
ghost use Rattle.kt_args.specs.Common.{App, Rule, app_of, new_app, rule_of, option_rule, with_rule, with_subcommand, bare_app, config_rule, variable_rule, kyuafile_rule, work_rule, results_rule, filters_rule, case_rule, run_rule, kinds_rule, verbose_rule, list_app, test_app, debug_app, report_app, junit_app, kyua_app};
ghost use Rattle.clap.specs.declared.builder.command.Command.TheViews.{out-Command as fields_of};

use clap::{Arg, ArgAction};
use kt_base::NoMemory;
use std::alloc::Global;

/// The default path of the Kyuafile (`-k`).
pub const DEFAULT_KYUAFILE: &str = "Kyuafile";

/// The default path of the directory in which work directories are created (`--work`, this
/// profile).
pub const DEFAULT_WORK_DIR: &str = "/tmp";

/// The default path of the results file (`-r`, this profile).
pub const DEFAULT_RESULTS_FILE: &str = "kyua.db";

/// The last line of the help of each command: the options `-c` and `-v` come before the command.
const OPTIONS_HINT: &str =
    "The options -c FILE and -v NAME=VALUE stand before the command; see 'kyua --help'.";

/// Creates an option with one value, such as `--work DIR`.
///
/// `long` is the name of the option without `--`, and `value` is the name of its value in the help.
/// `clap` stores the value of the option under the name `id`.
fn option_arg<'a>(alloc: Global, id: &'a str, long: &'a str, value: &'a str) -> Arg<'a>
    ensures rule { rule_of result ≡ option_rule id.entry.now long.entry.now }
    ensures own { result.global ≡ false }
{
    Arg::new(alloc, id)
        .long(long)
        .value_name(value)
        .action(ArgAction::Set)
}

/// Creates the option `-c FILE`, `--config FILE`.
fn config_arg<'a>(alloc: Global) -> Arg<'a>
    ensures rule { rule_of result ≡ config_rule }
    ensures own { result.global ≡ false }
{
    option_arg(alloc, "config", "config", "FILE")
        .short('c')
        .help("The configuration file that the cases are read with [default: no file]")
}

/// Creates the repeatable option `-v NAME=VALUE`, `--variable NAME=VALUE`.
fn variable_arg<'a>(alloc: Global) -> Arg<'a>
    ensures rule { rule_of result ≡ variable_rule }
    ensures own { result.global ≡ false }
{
    option_arg(alloc, "variables", "variable", "NAME=VALUE")
        .short('v')
        .action(ArgAction::Append)
        .help("Sets a variable, after those of the configuration file; may be repeated")
}

/// Creates the option `-k FILE`, `--kyuafile FILE`.
fn kyuafile_arg<'a>(alloc: Global) -> Arg<'a>
    ensures rule { rule_of result ≡ kyuafile_rule }
    ensures own { result.global ≡ false }
{
    option_arg(alloc, "kyuafile", "kyuafile", "FILE")
        .short('k')
        .default_value(DEFAULT_KYUAFILE)
        .help("The Kyuafile to read")
}

/// Creates the option `--work DIR`.
fn work_arg<'a>(alloc: Global) -> Arg<'a>
    ensures rule { rule_of result ≡ work_rule }
    ensures own { result.global ≡ false }
{
    option_arg(alloc, "work", "work", "DIR")
        .default_value(DEFAULT_WORK_DIR)
        .help("The absolute path of a directory to make work directories in")
}

/// Creates the option `-r FILE`, `--results-file FILE`.
fn results_arg<'a>(alloc: Global) -> Arg<'a>
    ensures rule { rule_of result ≡ results_rule }
    ensures own { result.global ≡ false }
{
    option_arg(alloc, "results", "results-file", "FILE")
        .short('r')
        .default_value(DEFAULT_RESULTS_FILE)
        .help("The file of the results")
}

/// Creates the argument `FILTER..` of `list` and `test`.
fn filters_arg<'a>(alloc: Global) -> Arg<'a>
    ensures rule { rule_of result ≡ filters_rule }
    ensures own { result.global ≡ false }
{
    Arg::new(alloc, "filters")
        .value_name("FILTER")
        .num_args(0..)
        .action(ArgAction::Append)
        .help("The test cases, as PROGRAM:CASE, PROGRAM or DIRECTORY [default: all]")
}

/// Creates the argument `PROGRAM:CASE` of `debug`.
fn case_arg<'a>(alloc: Global) -> Arg<'a>
    ensures rule { rule_of result ≡ case_rule }
    ensures own { result.global ≡ false }
{
    Arg::new(alloc, "filters")
        .value_name("PROGRAM:CASE")
        .required(true)
        .action(ArgAction::Set)
        .help("The test case to run")
}

/// Creates the option `--run N` of `report` and `report-junit`.
fn run_arg<'a>(alloc: Global) -> Arg<'a>
    ensures rule { rule_of result ≡ run_rule }
    ensures own { result.global ≡ false }
{
    option_arg(alloc, "run", "run", "N").help(
        "The number of the run, 1 to 1000000 [default: the last one]",
    )
}

/// Creates the option `--results-filter K,..` of `report`.
fn kinds_arg<'a>(alloc: Global) -> Arg<'a>
    ensures rule { rule_of result ≡ kinds_rule }
    ensures own { result.global ≡ false }
{
    option_arg(alloc, "kinds", "results-filter", "K,..").help(
        "The results to show: passed, skipped, xfail, broken, failed [default: all but passed]",
    )
}

/// Creates the flag `--verbose` of `report`.
fn verbose_arg<'a>(alloc: Global) -> Arg<'a>
    ensures rule { rule_of result ≡ verbose_rule }
    ensures own { result.global ≡ false }
{
    Arg::new(alloc, "verbose")
        .long("verbose")
        .action(ArgAction::SetTrue)
        .help("Shows the properties of each case beneath its line, defaults included")
}

/// A command line that is being declared to `clap`, or the error of a failed allocation.
type ClapCommand<'a> = Result<clap::Command<'a>, NoMemory>;

/// Returns the values of `first` and `second` if both are `Ok`, and otherwise the first error of
/// the two.
fn zip_results<A: Drop, B: Drop>(
    first: Result<A, NoMemory>,
    second: Result<B, NoMemory>,
) -> Result<(A, B), NoMemory>
    ensures { IfOk result (λ both. (first ≡ Ok both.0) × (second ≡ Ok both.1)) }
{
    Ok((first?, second?))
}

/// Returns the command line `line` with the option `option` added, or the error of a failed
/// allocation.
///
/// The option must not be global: a global option is valid in each command.
fn with_option<'a>(line: ClapCommand<'a>, option: Arg<'a>) -> ClapCommand<'a>
    requires { option.global ≡ false }
    ensures app { (app : App) → (rule : Rule) → rule_of option.entry ≡ rule
        → IfOk line.entry (λ c. app_of c ≡ app) → IfOk result (λ c. app_of c ≡ with_rule app rule) }
    ensures own { IfOk line.entry (λ c. (fields_of c).has_globals ≡ false)
        → IfOk result (λ c. (fields_of c).has_globals ≡ false) }
{
    let (line, option) = zip_results(line, Ok(option))?;
    Ok(line.arg(option)?)
}

/// Returns the command line `line` with the command `command` added, or the error of a failed
/// allocation.
///
/// The options of the command must not be global.
fn with_command<'a>(line: ClapCommand<'a>, command: ClapCommand<'a>) -> ClapCommand<'a>
    requires { IfOk command (λ c. (fields_of c).has_globals ≡ false) }
    ensures app { (app : App) → (sub : App) → IfOk command.entry (λ c. app_of c ≡ sub)
        → IfOk line.entry (λ c. app_of c ≡ app)
        → IfOk result (λ c. app_of c ≡ with_subcommand app sub.top) }
    ensures own { IfOk line.entry (λ c. (fields_of c).has_globals ≡ false)
        → IfOk result (λ c. (fields_of c).has_globals ≡ false) }
{
    let (line, command) = zip_results(line, command)?;
    Ok(line.subcommand(command)?)
}

/// Creates the command `name`, with the description `about` in the help and without options.
///
/// The help of the command ends with a line about the options before the command.
fn new_command<'a>(alloc: Global, name: &'a str, about: &'a str) -> ClapCommand<'a>
    ensures app { IfOk result (λ c. app_of c ≡ new_app name.entry.now) }
    ensures own { IfOk result (λ c. (fields_of c).has_globals ≡ false) }
{
    Ok(
        clap::Command::new(alloc, name)
            .about(about)
            .after_help(OPTIONS_HINT),
    )
}

/// Creates the command `list [-k FILE] [--work=DIR] [FILTER..]` of kyua-list(1).
///
/// The option `--work` is an extension of this profile.
fn list_command<'a>(alloc: Global) -> ClapCommand<'a>
    ensures app { IfOk result (λ c. app_of c ≡ list_app) }
    ensures own { IfOk result (λ c. (fields_of c).has_globals ≡ false) }
{
    let line = new_command(alloc, "list", "Lists test cases");
    let line = with_option(line, kyuafile_arg(alloc));
    let line = with_option(line, work_arg(alloc));
    with_option(line, filters_arg(alloc))
}

/// Creates the command `test [-k FILE] [-r FILE] [--work=DIR] [FILTER..]` of kyua-test(1).
///
/// The option `--work` is an extension of this profile.
fn test_command<'a>(alloc: Global) -> ClapCommand<'a>
    ensures app { IfOk result (λ c. app_of c ≡ test_app) }
    ensures own { IfOk result (λ c. (fields_of c).has_globals ≡ false) }
{
    let line = new_command(alloc, "test", "Runs test cases and records their results");
    let line = with_option(line, kyuafile_arg(alloc));
    let line = with_option(line, results_arg(alloc));
    let line = with_option(line, work_arg(alloc));
    with_option(line, filters_arg(alloc))
}

/// Creates the command `debug [-k FILE] [--work=DIR] PROGRAM:CASE` of kyua-debug(1).
///
/// The option `--work` is an extension of this profile.
fn debug_command<'a>(alloc: Global) -> ClapCommand<'a>
    ensures app { IfOk result (λ c. app_of c ≡ debug_app) }
    ensures own { IfOk result (λ c. (fields_of c).has_globals ≡ false) }
{
    let line = new_command(
        alloc,
        "debug",
        "Runs one test case and shows what it writes",
    );
    let line = with_option(line, kyuafile_arg(alloc));
    let line = with_option(line, work_arg(alloc));
    with_option(line, case_arg(alloc))
}

/// Creates the command `report` of kyua-report(1).
///
/// Its options are `[-r FILE] [--run=N] [--results-filter=K,..] [--verbose]`. The option `--run` is
/// an extension of this profile.
fn report_command<'a>(alloc: Global) -> ClapCommand<'a>
    ensures app { IfOk result (λ c. app_of c ≡ report_app) }
    ensures own { IfOk result (λ c. (fields_of c).has_globals ≡ false) }
{
    let line = new_command(alloc, "report", "Shows a recorded run as text");
    let line = with_option(line, results_arg(alloc));
    let line = with_option(line, run_arg(alloc));
    let line = with_option(line, kinds_arg(alloc));
    with_option(line, verbose_arg(alloc))
}

/// Creates the command `report-junit [-r FILE] [--run=N]` of kyua-report-junit(1).
///
/// The option `--run` is an extension of this profile.
fn junit_command<'a>(alloc: Global) -> ClapCommand<'a>
    ensures app { IfOk result (λ c. app_of c ≡ junit_app) }
    ensures own { IfOk result (λ c. (fields_of c).has_globals ≡ false) }
{
    let line = new_command(
        alloc,
        "report-junit",
        "Shows a recorded run as a JUnit report",
    );
    let line = with_option(line, results_arg(alloc));
    with_option(line, run_arg(alloc))
}

/// Creates the command line of `kyua`, without options and commands.
///
/// The parser requires a command. The arguments that it parses don't include the program's own
/// name.
fn bare_command<'a>(alloc: Global) -> ClapCommand<'a>
    ensures app { IfOk result (λ c. app_of c ≡ bare_app) }
    ensures own { IfOk result (λ c. (fields_of c).has_globals ≡ false) }
{
    Ok(
        clap::Command::new(alloc, "kyua")
            .about("Runs test programs and reports their results")
            .bin_name("kyua")?
            .no_binary_name(true)
            .subcommand_required(true)
            .disable_help_subcommand(true),
    )
}

/// Creates the whole command line of kyua(1), with all options and commands.
///
/// The arguments that it parses don't include the program's own name.
///
/// # Errors
///
/// - `NoMemory`: an allocation fails.
pub fn kyua_command<'a>(alloc: Global) -> Result<clap::Command<'a>, NoMemory>
    ensures app { IfOk result (λ c. app_of c ≡ kyua_app) }
    ensures own { IfOk result (λ c. (fields_of c).has_globals ≡ false) }
{
    let line = with_option(bare_command(alloc), config_arg(alloc));
    let line = with_option(line, variable_arg(alloc));
    let line = with_command(line, list_command(alloc));
    let line = with_command(line, test_command(alloc));
    let line = with_command(line, debug_command(alloc));
    let line = with_command(line, report_command(alloc));
    with_command(line, junit_command(alloc))
}
