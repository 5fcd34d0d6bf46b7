use crate::commands_run::CommandsRun;
use crate::failing_store::FailingStore;
use crate::scripted_results_host::ScriptedResultsHost;
use kt_dbfile::RunsFile;
use kt_doubles::{Scene, SplitReadStore, push_call};
use kt_examples::{
    Example, ExampleFault, ExampleLine, ExampleOutput, Result, convert_error, find_entry_lines,
    is_entry_line,
};
use kt_store::{ResultStore, Results};
use sqlite::{Alter, Connection};
use std::alloc::Global;

/// A database with a results store, and the way in which the store is used.
#[derive(Drop)]
enum OpenStore<S: Alter + Drop> {
    /// The results tables of the database aren't attached.
    Detached(Connection<S>),
    /// The results tables are read and written by SQL.
    Attached(Results<S>),
    /// The results tables are read and written through their B-trees.
    Trees(RunsFile<S>),
}

/// Detaches the results tables of a database, and returns its connection. A store that is used
/// through its trees can't be detached.
fn detach_store<S: Alter + Drop>(store: OpenStore<S>) -> Result<Connection<S>> {
    match store {
        OpenStore::Detached(connection) => Ok(connection),
        OpenStore::Attached(results) => Ok(results.detach()),
        OpenStore::Trees(_file) => Err(ExampleFault::InvalidExample("the tables are taken twice")),
    }
}

/// Converts a store that is used by SQL into a store that is used through its trees.
fn into_runs_file<S: Alter + Drop>(results: Results<S>) -> Result<RunsFile<S>> {
    match RunsFile::from_results(results) {
        Ok(file) => Ok(file),
        Err(_) => Err(ExampleFault::InvalidExample("its trees can't be read")),
    }
}

/// Attaches the results tables of a database, and appends `attached` or the error. If `uses_trees`
/// is set, the returned store is used through its trees.
fn attach<S: Alter + Drop>(
    out: &mut ExampleOutput,
    connection: Connection<S>,
    uses_trees: bool,
) -> Result<OpenStore<S>> {
    if !connection.is_autocommit() {
        return Err(ExampleFault::InvalidExample("a transaction is open"));
    }
    match Results::attach(out.alloc, connection) {
        Ok(results) => {
            out.push("attached");
            if uses_trees {
                return Ok(OpenStore::Trees(into_runs_file(results)?));
            }
            Ok(OpenStore::Attached(results))
        }
        Err((fault, connection)) => {
            out.push_name(&fault);
            Ok(OpenStore::Detached(connection))
        }
    }
}

/// Executes the store call or the command line in `line` over the store `results`, and appends its
/// output to `out`. `content` are the lines of the entry that a call `put` stores. Returns the
/// store.
fn execute_call<R: ResultStore + Drop>(
    out: &mut ExampleOutput,
    mut results: R,
    line: &ExampleLine<'_>,
    content: &[ExampleLine<'_>],
) -> Result<R> {
    if line.keyword != "do" {
        let (store, alloc) = (&mut results, out.alloc);
        push_call(out, &mut SplitReadStore { store, alloc }, line, content)?;
        return Ok(results);
    }
    let mut commands_run = CommandsRun::new(
        out.alloc,
        ScriptedResultsHost::new(out.alloc, results),
    );
    commands_run.execute_lines(&[*line], &Scene::new(out.alloc))?;
    commands_run.push_result(out)?;
    commands_run.into_results()
}

/// Executes the store call in `line` by SQL, and appends its output. `content` are the lines of the
/// entry that a call `put` stores. A command line uses the store through its trees, and so do the
/// lines after it.
fn execute_by_sql<S: Alter + Drop>(
    out: &mut ExampleOutput,
    mut results: Results<S>,
    line: &ExampleLine<'_>,
    content: &[ExampleLine<'_>],
) -> Result<OpenStore<S>> {
    if line.keyword == "do" {
        let file = into_runs_file(results)?;
        return Ok(OpenStore::Trees(execute_call(out, file, line, content)?));
    }
    push_call(out, &mut results, line, content)?;
    Ok(OpenStore::Attached(results))
}

/// Executes the line `line` of an example over a database, and appends its output. `content` are
/// the lines of the entry that a call `put` stores. If `uses_trees` is set, an attached store is
/// used through its trees.
fn execute_store_line<S: Alter + Drop>(
    out: &mut ExampleOutput,
    store: OpenStore<S>,
    uses_trees: bool,
    line: &ExampleLine<'_>,
    content: &[ExampleLine<'_>],
) -> Result<OpenStore<S>> {
    out.push_separator("\n");
    match line.keyword {
        "attach" => attach(out, detach_store(store)?, uses_trees),
        "sql" => {
            let mut connection = detach_store(store)?;
            if connection.execute(line.text, &[]).is_err() {
                return Err(ExampleFault::InvalidExample("the statement fails"));
            }
            out.push("done");
            Ok(OpenStore::Detached(connection))
        }
        _ => match store {
            OpenStore::Detached(_) => Err(ExampleFault::InvalidExample("no tables are attached")),
            OpenStore::Attached(results) => execute_by_sql(out, results, line, content),
            OpenStore::Trees(file) => Ok(OpenStore::Trees(execute_call(out, file, line, content)?)),
        },
    }
}

/// Executes lines over a new database in memory, by SQL or through its trees, and returns their
/// outputs.
fn execute_on_database(
    alloc: Global,
    lines: &[ExampleLine<'_>],
    uses_trees: bool,
) -> Result<String> {
    let mut out = ExampleOutput::new(alloc);
    let mut store = OpenStore::Detached(Connection::open_in_memory(alloc)?);
    for (place, line) in lines.iter().enumerate() {
        if !is_entry_line(line) {
            store = execute_store_line(
                &mut out,
                store,
                uses_trees,
                line,
                find_entry_lines(lines, place),
            )?;
        }
    }
    convert_error(out.into_string())
}

/// Returns `true` if one of `lines` after the first `attach` uses the connection. A store that is
/// used through its trees can't return the connection.
fn uses_connection_again(lines: &[ExampleLine<'_>]) -> bool {
    let mut later = lines.iter().skip_while(|line| line.keyword != "attach");
    later.next();
    later.any(|line| line.keyword == "attach" || line.keyword == "sql")
}

/// Returns `true` if an output contains the error of a failed allocation.
fn has_memory_error(output: &str) -> bool {
    output.contains("NoMemory") || output.contains("out of memory")
}

/// Appends `by_sql`, the output of the execution by SQL. Also appends `by_trees`, the output of the
/// execution through trees, if it differs. If one output reports a failed allocation, only that
/// output is appended, because the other execution didn't have that failure.
fn push_common_output(out: &mut ExampleOutput, by_sql: &str, by_trees: &str) {
    if by_sql == by_trees || has_memory_error(by_sql) {
        out.push(by_sql);
    } else if has_memory_error(by_trees) {
        out.push(by_trees);
    } else {
        out.push(by_sql);
        out.push_line("by its trees:");
        out.push_line(by_trees);
    }
}

/// Executes the lines of an example over a store in memory, and appends their outputs.
fn execute_in_memory(
    out: &mut ExampleOutput,
    lines: &[ExampleLine<'_>],
    mut runs: FailingStore,
) -> Result<()> {
    for (place, line) in lines.iter().enumerate() {
        if !is_entry_line(line) {
            out.push_separator("\n");
            runs = execute_call(out, runs, line, find_entry_lines(lines, place))?;
        }
    }
    Ok(())
}

/// Executes store calls over a database in memory, by SQL and through its trees, and appends the
/// common output. After the line `memory`, the calls are executed over a store in memory alone.
///
/// # Errors
///
/// - `InvalidExample`: a line is invalid, or an SQL statement fails.
/// - `NoMemory`: an allocation outside the store failed.
pub fn push_output(out: &mut ExampleOutput, example: &Example<'_>) -> Result<()> {
    let lines = example.lines.as_slice();
    if let Some((first, calls)) = lines.split_first() {
        if first.keyword == "memory" {
            return execute_in_memory(out, calls, FailingStore::new(out.alloc, example)?);
        }
    }
    let by_sql = execute_on_database(out.alloc, lines, false)?;
    if uses_connection_again(lines) {
        out.push(by_sql.as_str());
        return Ok(());
    }
    let by_trees = execute_on_database(out.alloc, lines, true)?;
    push_common_output(out, by_sql.as_str(), by_trees.as_str());
    Ok(())
}
