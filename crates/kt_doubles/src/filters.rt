use kt_base::Text;
use kt_examples::{
    Example, ExampleFault, ExampleLine, ExampleOutput, Result, expand_copies, push_or_fail,
    require_part, split_once_or_fail, unescape_text, zip_results,
};
use kt_suite::{Filter, FilterFault, Item, check_disjoint, select};
use std::alloc::Global;

/// The cases and the filters that the lines of an example have added so far.
#[derive(Drop)]
struct FilterState {
    /// The cases that the example added, in the order of its lines.
    items: Vec<Item>,
    /// The filters that the example added, in the order of its lines.
    filters: Vec<Filter>,
}

/// Parses `raw` as a case in the form `PATH CASE`, split at the first space, and decodes the
/// escapes of both parts.
fn parse_item(alloc: Global, raw: &str) -> Result<Item> {
    let (path, case_name) = split_once_or_fail(raw, " ", "a case stands after a path")?;
    let (path, case_name) = zip_results(
        unescape_text(alloc, path),
        unescape_text(alloc, case_name),
    )?;
    Ok(Item { path, case_name })
}

/// Decodes the escapes of `raw`, and parses the text as a filter. Fails if an escape is invalid, or
/// if `Filter::parse` rejects the text.
fn parse_filter(alloc: Global, raw: &str) -> Result<Filter> {
    let filter = Filter::parse(alloc, &unescape_text(alloc, raw)?).ok();
    require_part(filter, "a rejected filter is only allowed with `read`")
}

/// Decodes the escapes of `raw`, parses the text as a filter, and appends its parts, as `d/b, case
/// main`. If the filter is rejected, appends the error's message.
fn push_parsed_filter(out: &mut ExampleOutput, raw: &str) -> Result<()> {
    match Filter::parse(out.alloc, &unescape_text(out.alloc, raw)?) {
        Ok(filter) => {
            out.push(filter.program.as_str());
            if let Some(case_name) = &filter.case_name {
                write!(out, ", case {}", case_name.as_str());
            }
        }
        Err(fault) => write!(out, "{fault}"),
    }
    Ok(())
}

/// Appends `label`, and then a space and a number for each of `positions`. Without positions,
/// appends ` none` after the label.
fn push_position_list(out: &mut ExampleOutput, label: &str, positions: &[usize]) {
    out.push(label);
    for position in positions {
        write!(out, " {position}");
    }
    if positions.is_empty() {
        out.push(" none");
    }
}

/// Checks that `filters` are disjoint, and appends `disjoint`, or the error and the position of the
/// filter that causes it.
fn push_disjoint_check(out: &mut ExampleOutput, filters: &[Filter]) {
    match check_disjoint(filters) {
        Ok(()) => out.push("disjoint"),
        Err(FilterFault::Repeated(at)) => write!(out, "repeated at {at}"),
        Err(FilterFault::NotDisjoint(at)) => write!(out, "not disjoint at {at}"),
        Err(fault) => write!(out, "{fault}"),
    }
}

impl FilterState {
    /// Parses `raw` as a filter or as a case, as the keyword `keyword` selects, and adds it to this
    /// state.
    fn add_filter_or_case(&mut self, alloc: Global, keyword: &str, raw: &str) -> Result<()> {
        match keyword {
            "filter" | "filters" => push_or_fail(&mut self.filters, parse_filter(alloc, raw)),
            _ => push_or_fail(&mut self.items, parse_item(alloc, raw)),
        }
    }

    /// Executes `line`, which adds filters or cases or is a query, and appends the output of a
    /// query.
    fn execute_line(&mut self, out: &mut ExampleOutput, line: &ExampleLine<'_>) -> Result<()> {
        match line.keyword {
            "filter" | "item" => self.add_filter_or_case(out.alloc, line.keyword, line.text),
            "filters" | "items" => {
                for text in expand_copies(out.alloc, line.text)?.as_slice() {
                    self.add_filter_or_case(out.alloc, line.keyword, text.as_str())?;
                }
                Ok(())
            }
            _ => self.push_query_output(out, line),
        }
    }

    /// Appends `yes` for each filter that matches the case `case_name` of the program at `path`,
    /// else `no`. Without `case_name`, `yes` means that the filter may match a case of the program.
    fn push_matches(&self, out: &mut ExampleOutput, path: &Text, case_name: Option<&Text>) {
        let mut separator = "";
        for filter in self.filters.as_slice() {
            let matches = match case_name {
                Some(name) => filter.matches(path, name),
                None => filter.may_match(path),
            };
            write!(out, "{separator}{}", if matches { "yes" } else { "no" });
            separator = " ";
        }
    }

    /// Appends the positions of the selected cases and of the filters that match no case, or the
    /// message of the error if the selection fails. The output is `cases 0 2, unmatched none`, or
    /// `2 cases, 0 unmatched` if `is_brief` is set.
    fn push_selection(&self, out: &mut ExampleOutput, is_brief: bool) {
        match select(out.alloc, &self.items, &self.filters) {
            Ok(found) if is_brief => {
                let (cases, unmatched) = (found.cases.len(), found.unmatched.len());
                write!(out, "{cases} cases, {unmatched} unmatched");
            }
            Ok(found) => {
                push_position_list(out, "cases", &found.cases);
                push_position_list(out, ", unmatched", &found.unmatched);
            }
            Err(fault) => write!(out, "{fault}"),
        }
    }

    /// Executes the query in `line`, and appends its output as a new line.
    fn push_query_output(&self, out: &mut ExampleOutput, line: &ExampleLine<'_>) -> Result<()> {
        out.push_separator("\n");
        match line.keyword {
            "read" => return push_parsed_filter(out, line.text),
            "matches" => {
                let item = parse_item(out.alloc, line.text)?;
                self.push_matches(out, &item.path, Some(&item.case_name));
            }
            "may-match" => self.push_matches(out, &unescape_text(out.alloc, line.text)?, None),
            "disjoint" => push_disjoint_check(out, &self.filters),
            "select" => self.push_selection(out, false),
            "count" => self.push_selection(out, true),
            _ => return Err(ExampleFault::InvalidExample("no such word")),
        }
        Ok(())
    }
}

/// Executes the lines of an example about filters, in order, and appends a line for each query.
///
/// # Errors
///
/// - `InvalidExample`: a line is invalid.
/// - `NoMemory`: an allocation failed.
pub fn push_output(out: &mut ExampleOutput, example: &Example<'_>) -> Result<()> {
    let mut state = FilterState {
        items: Vec::new(out.alloc),
        filters: Vec::new(out.alloc),
    };
    for line in example.lines.as_slice() {
        state.execute_line(out, line)?;
    }
    Ok(())
}
