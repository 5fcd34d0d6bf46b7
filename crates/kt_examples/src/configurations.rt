use crate::escapes::{unescape, unescape_text};
use crate::example::{Example, ExampleLine, append_copies, parse_pair};
use crate::example_fault::{ExampleFault, Result, split_once_or_fail, zip_results};
use crate::example_output::ExampleOutput;
use crate::retry_once;
use kt_base::Text;
use kt_config::{Config, ConfigFault, SuiteVariables};

/// Appends the variables of the suite `suite`, as `a=1 b=2`, or their number if `keyword` is
/// `count`. Appends `none` if the suite has no variables.
fn push_suite(out: &mut ExampleOutput, config: &Config, keyword: &str, suite: &str) -> Result<()> {
    let suite = config.suite_vars(&unescape_text(out.alloc, suite)?);
    match &suite.map(SuiteVariables::copy).transpose()? {
        None => out.push("none"),
        Some(variables) if keyword == "count" => write!(out, "{}", variables.len()),
        Some(variables) => out.push_pairs(variables, " ", "="),
    }
    Ok(())
}

/// Returns the value of the variable `name` of the suite `suite`.
///
/// Returns `no suite` if the suite has no variables, or `no variable` if the suite has no variable
/// `name`.
fn find_suite_value<'a>(config: &'a Config, suite: &Text, name: &Text) -> &'a str {
    match config.suite_vars(suite) {
        None => "no suite",
        Some(variables) if !variables.has_variable(name) => "no variable",
        Some(variables) => variables.get(name).map_or("no variable", Text::as_str),
    }
}

/// Parses `text` as `SUITE NAME`, and appends the value of the variable NAME of this suite.
fn push_value(out: &mut ExampleOutput, config: &Config, text: &str) -> Result<()> {
    let (suite, name) = split_once_or_fail(text, " ", "no suite and name")?;
    let (suite, name) = zip_results(
        unescape_text(out.alloc, suite),
        unescape_text(out.alloc, name),
    )?;
    out.push(find_suite_value(config, &suite, &name));
    Ok(())
}

/// Parses `text` as `NAME=VALUE` and sets this variable of `config`. Appends `set`, or the error's
/// message if the variable is rejected.
fn execute_set(out: &mut ExampleOutput, config: &mut Config, text: &str) -> Result<()> {
    let pair = parse_pair(out.alloc, text)?;
    match retry_once!(ConfigFault, config.set(&pair.name, &pair.value)) {
        Ok(()) => out.push("set"),
        Err(fault) => write!(out, "{fault}"),
    }
    Ok(())
}

/// Executes one line of an example on the configuration `config`, and appends the output of the
/// line to `out`.
fn push_line_output(
    out: &mut ExampleOutput,
    config: &mut Config,
    line: &ExampleLine<'_>,
) -> Result<()> {
    out.push_separator("\n");
    match line.keyword {
        "set" => return execute_set(out, config, line.text),
        "suite" | "count" => return push_suite(out, config, line.keyword, line.text),
        "value" => return push_value(out, config, line.text),
        "parallelism" => write!(out, "{}", config.parallelism()),
        "architecture" => out.push(config.architecture()),
        "platform" => out.push(config.platform()),
        _ => return Err(ExampleFault::InvalidExample("no such word")),
    }
    Ok(())
}

/// Executes the lines of an example on the configuration `config`, and appends their outputs to
/// `out`.
fn push_line_outputs(
    out: &mut ExampleOutput,
    mut config: Config,
    example: &Example<'_>,
) -> Result<()> {
    for line in example.lines.as_slice() {
        if !matches!(line.keyword, "file" | "numbered") {
            push_line_output(out, &mut config, line)?;
        }
    }
    Ok(())
}

/// Executes the lines of an example on a configuration, and appends their outputs.
///
/// The configuration is empty at first, or is parsed from the text of the line `file TEXT`. The
/// lines `numbered COUNT STATEMENT` add statements to this file. If the file is rejected, only the
/// error's message is appended.
///
/// # Errors
///
/// - `InvalidExample`: a line is invalid.
/// - `NoMemory`: an allocation failed.
pub fn push_output(out: &mut ExampleOutput, example: &Example<'_>) -> Result<()> {
    let Some(file) = example.find_text("file") else {
        return push_line_outputs(out, Config::new(out.alloc), example);
    };
    let file = append_copies(out.alloc, unescape(out.alloc, file), example)?;
    match Config::read(out.alloc, &file) {
        Ok(config) => return push_line_outputs(out, config, example),
        Err(fault) => write!(out, "{fault}"),
    }
    Ok(())
}
