use crate::example::Example;
use crate::example_fault::Result;
use crate::example_output::ExampleOutput;
use kt_script::{Action, Arg, Literal, Stmt, parse};

/// Appends the literal `value` between the texts `before` and `after`, in quotes if it is a text.
fn push_literal(out: &mut ExampleOutput, before: &str, value: &Literal, after: &str) {
    let quote = match value {
        Literal::Text(_) => "'",
        _ => "",
    };
    write!(out, "{before}{quote}");
    out.push_text(value.text(out.alloc));
    write!(out, "{quote}{after}");
}

/// Appends the argument of a call, as `('a')`, or as `{a=1,}` for a table.
fn push_argument(out: &mut ExampleOutput, arg: &Arg) {
    match arg {
        Arg::Value(value) => push_literal(out, "(", value, ")"),
        Arg::Table(pairs) => {
            out.push("{");
            for pair in pairs.as_slice() {
                out.push(pair.name.as_str());
                push_literal(out, "=", &pair.value, ",");
            }
            out.push("}");
        }
    }
}

/// Appends statements with the numbers of their lines, as `1:f('a') 3:g{a=1,} 4:a.b=true`.
fn push_stmts(out: &mut ExampleOutput, stmts: &[Stmt]) {
    for stmt in stmts {
        out.push_separator(" ");
        write!(out, "{}:", stmt.line);
        match &stmt.action {
            Action::Call(name, arg) => {
                out.push(name.as_str());
                push_argument(out, arg);
            }
            Action::Assign(path, value) => {
                let mut separator = "";
                for part in path.as_slice() {
                    write!(out, "{separator}{}", part.as_str());
                    separator = ".";
                }
                push_literal(out, "=", value, "");
            }
        }
    }
}

/// Parses the script in the line `script TEXT` of an example, and appends its statements or the
/// error.
///
/// # Errors
///
/// - `InvalidExample`: the line is missing, or an escape is invalid.
/// - `NoMemory`: an allocation failed.
pub fn push_output(out: &mut ExampleOutput, example: &Example<'_>) -> Result<()> {
    match parse(
        out.alloc,
        &example.require_bytes(out.alloc, "script", "no script")?,
    ) {
        Ok(stmts) => push_stmts(out, stmts.as_slice()),
        Err(fault) => write!(out, "{fault:?}"),
    }
    Ok(())
}
