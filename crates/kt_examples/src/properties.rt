use crate::escapes::unescape_text;
use crate::example::{Example, ExampleLine, parse_pair};
use crate::example_fault::{ExampleFault, Result, convert_error, require_part, zip_results};
use crate::example_output::ExampleOutput;
use crate::numbers::{expand_copies, store_number};
use crate::retry_once;
use crate::verdicts::push_reason;
use kt_base::{Text, Variables, Verdict};
use kt_config::{Config, ConfigFault};
use kt_metadata::{
    Host, Need, PropFault, Props, is_kyuafile_property, property_name_of_key, unmet,
};
use std::alloc::Global;

/// The state of an example about properties: the properties of a program and of its case, a
/// configuration and a host.
#[derive(Drop)]
struct PropertyState {
    program: Props,
    case: Props,
    config: Config,
    host: Host,
}

/// Parses `raw` as `NAME=VALUE` and sets this property in `props`. Appends the error's message to
/// `out` if the property is rejected.
fn set_property(out: &mut ExampleOutput, props: &mut Props, raw: &str) -> Result<()> {
    let pair = parse_pair(out.alloc, raw)?;
    if let Err(fault) = retry_once!(PropFault, props.set(&pair.name, &pair.value)) {
        out.push_separator("\n");
        write!(out, "{fault}");
    }
    Ok(())
}

/// Parses `raw` as `NAME=VALUE` and sets this property in `props`.
///
/// # Errors
///
/// - `InvalidExample`: the property is rejected, or an escape is invalid.
/// - `NoMemory`: an allocation failed.
pub fn set_valid_property(alloc: Global, props: &mut Props, raw: &str) -> Result<()> {
    let pair = parse_pair(alloc, raw)?;
    let set = retry_once!(PropFault, props.set(&pair.name, &pair.value)).ok();
    require_part(set, "there is no such property or value")
}

/// Parses `raw` as `COUNT NAME=VALUE` and sets COUNT properties in `props`. Each `#` is replaced by
/// the number of the property, counted from 0. Fails if a property is rejected.
fn set_property_copies(alloc: Global, props: &mut Props, raw: &str) -> Result<()> {
    for text in expand_copies(alloc, raw)?.as_slice() {
        set_valid_property(alloc, props, text.as_str())?;
    }
    Ok(())
}

/// Returns the value of the pair in `pairs` with the name `name`, or `None` if there is no such
/// pair.
fn find_value<'a>(pairs: &'a Variables, name: &str) -> Option<&'a str> {
    let mut pairs = pairs.as_slice().iter();
    Some(
        pairs
            .find(|pair| pair.name.is_equal_to(name))?
            .value
            .as_str(),
    )
}

/// Appends the properties in `props` that differ from their defaults, each as ` timeout=20`.
///
/// # Errors
///
/// - `NoMemory`: an allocation failed.
pub fn push_properties(out: &mut ExampleOutput, props: &Props) -> Result<()> {
    let defaults = Props::new(out.alloc).listing()?;
    for pair in props.listing()?.as_slice() {
        if find_value(&defaults, pair.name.as_str()) != Some(pair.value.as_str()) {
            out.push_pair(" ", pair, "=");
        }
    }
    Ok(())
}

/// Parses `raw` as `NAME=VALUE` and sets this variable of the configuration. Fails if the variable
/// is rejected.
fn set_variable(alloc: Global, config: &mut Config, raw: &str) -> Result<()> {
    let pair = parse_pair(alloc, raw)?;
    let set = retry_once!(ConfigFault, config.set(&pair.name, &pair.value)).ok();
    require_part(set, "there is no such variable")
}

/// Executes the query `keyword` on `pairs`, the properties of an example, and appends its output.
///
/// `show` prints the value of the property `name`, or `-` if there is no such property. `count`
/// prints the number of properties, and `listing` prints all of them.
fn execute_listing_query(
    out: &mut ExampleOutput,
    keyword: &str,
    name: &str,
    pairs: &Variables,
) -> Result<()> {
    match keyword {
        "show" => out.push(find_value(pairs, name).unwrap_or("-")),
        "count" => write!(out, "{}", pairs.len()),
        "listing" => out.push_pairs(pairs, "\n", " = "),
        _ => return Err(ExampleFault::InvalidExample("there is no such word")),
    }
    Ok(())
}

impl PropertyState {
    /// Appends the reason of the first unmet requirement in `props`, or `met`. The case is in the
    /// suite `s`.
    fn push_unmet_requirement(&self, out: &mut ExampleOutput, props: &Props) -> Result<()> {
        let suite = Text::from_str(out.alloc, "s")?;
        let meta = props.effective()?;
        match unmet(out.alloc, &meta, &self.config, &suite, &self.host)? {
            None => out.push("met"),
            Some(reason) => return push_reason(out, &Verdict::broken(reason)),
        }
        Ok(())
    }

    /// Records that the required file or program `raw` exists on the host.
    fn record_need(&mut self, alloc: Global, need: Need, raw: &str) -> Result<()> {
        convert_error(self.host.record_found(need, &unescape_text(alloc, raw)?))
    }

    /// Executes a line of an example, which changes the state or is a query, and appends the output
    /// of a query or the error's message.
    fn execute_line(&mut self, out: &mut ExampleOutput, line: &ExampleLine<'_>) -> Result<()> {
        let (alloc, text) = (out.alloc, line.text);
        match line.keyword {
            "set" => return set_property(out, &mut self.program, text),
            "case" => return set_property(out, &mut self.case, text),
            "numbered" => return set_property_copies(alloc, &mut self.program, text),
            "config" => return set_variable(alloc, &mut self.config, text),
            "file" => return self.record_need(alloc, Need::File, text),
            "program" => return self.record_need(alloc, Need::Program, text),
            "memory" => return store_number(&mut self.host.memory, text),
            "disk" => return store_number(&mut self.host.disk, text),
            "root" => self.host.root = true,
            _ => return self.execute_case_query(out, line),
        }
        Ok(())
    }

    /// Executes the query in `line`, and appends its output.
    ///
    /// The query reads the properties of the case. A property that the case doesn't set has the
    /// value of the program.
    fn execute_case_query(&self, out: &mut ExampleOutput, line: &ExampleLine<'_>) -> Result<()> {
        out.push_separator("\n");
        let props = convert_error(Props::overlay(&self.program, &self.case));
        let (name, props) = zip_results(unescape_text(out.alloc, line.text), props)?;
        self.push_line_output(out, line.keyword, &name, &props)
    }

    /// Executes the query `keyword` on the properties `props`, and appends its output. `name` is
    /// the property or the key that the query names, if any.
    fn push_line_output(
        &self,
        out: &mut ExampleOutput,
        keyword: &str,
        name: &Text,
        props: &Props,
    ) -> Result<()> {
        match keyword {
            "key" => {
                let property = property_name_of_key(out.alloc, name)?;
                out.push(property.as_ref().map_or("unknown", Text::as_str));
            }
            "kyuafile" if is_kyuafile_property(name) => out.push("yes"),
            "kyuafile" => out.push("no"),
            "get" => out.push(props.get(name).map_or("-", Text::as_str)),
            "unmet" => return self.push_unmet_requirement(out, props),
            _ => return execute_listing_query(out, keyword, name.as_str(), &props.listing()?),
        }
        Ok(())
    }
}

/// Executes the lines of an example about properties and requirements, in order, and appends their
/// outputs.
///
/// # Errors
///
/// - `InvalidExample`: a line is invalid.
/// - `NoMemory`: an allocation failed.
pub fn push_output(out: &mut ExampleOutput, example: &Example<'_>) -> Result<()> {
    let mut state = PropertyState {
        program: Props::new(out.alloc),
        case: Props::new(out.alloc),
        config: Config::new(out.alloc),
        host: Host::new(out.alloc, false, None, None),
    };
    for line in example.lines.as_slice() {
        state.execute_line(out, line)?;
    }
    Ok(())
}
