//! Parses the lines of an example as a scene, which is the script for a system and for host files.

use crate::scene::{ChildScript, PartFault, SceneFile};
use crate::{Scene, fail_allocation};
use kt_base::{NoMemory, Outcome, Text};
use kt_child::ChildState;
use kt_examples::{
    CASE_LIST_HEADER, Example, ExampleFault, ExampleLine, Result, append_unescaped, convert_error,
    parse_count, parse_numbers, parse_outcome, push_or_fail, require_part, split_once_or_fail,
    unescape_text, zip_results,
};
use kt_store::{DatabaseFailure, Results, StoreFault};
use sqlite::Connection;
use std::alloc::Global;

/// Provokes a failed allocation, and returns its error.
///
/// # Errors
///
/// - `InvalidExample`: the allocation didn't fail.
pub fn provoke_no_memory(alloc: Global) -> Result<NoMemory> {
    require_part(fail_allocation(alloc).err(), "this machine has all memory")
}

/// Provokes a failed statement in a database that lacks the results tables, and returns its error.
///
/// # Errors
///
/// - `InvalidExample`: no statement failed.
/// - `NoMemory`: the allocation of the database failed.
pub fn provoke_store_error(alloc: Global) -> Result<DatabaseFailure> {
    let mut conn = Connection::open_in_memory(alloc)?;
    let _ = conn.execute("CREATE TABLE other (id INTEGER)", &[]);
    match Results::attach(alloc, conn) {
        Err((StoreFault::Store(failed), _conn)) => Ok(failed),
        Err((_fault, _conn)) => Err(ExampleFault::InvalidExample("no statement failed")),
        Ok(_results) => Err(ExampleFault::InvalidExample("no statement failed")),
    }
}

/// Parses `text` as the script of a child: an outcome, or `running xN, ` and an outcome. The
/// outcome is an exit or a signal.
fn parse_child_script(text: &str) -> Result<ChildScript> {
    let (running, ending) = match text.strip_prefix("running x") {
        None => ("0", text),
        Some(rest) => split_once_or_fail(rest, ", ", "a life is `running xN, ` and an ending")?,
    };
    let exit = match parse_outcome(ending)? {
        Outcome::Exited(code) => ChildState::Exited(code),
        Outcome::Signaled(signal, core) => ChildState::Signaled(signal, core),
        _ => return Err(ExampleFault::InvalidExample("a child exits or is ended by a signal")),
    };
    Ok(ChildScript {
        running_polls: parse_count(running)?,
        exit,
    })
}

/// Adds the file at `path` to `scene`. The contents of the file are `beginning`, followed by `raw`
/// with its escapes decoded.
fn add_file(scene: &mut Scene, path: &str, beginning: &str, raw: &str) -> Result<()> {
    let path = unescape_text(scene.alloc, path)?.into_string();
    let mut bytes = beginning.as_bytes().to_vec(scene.alloc)?;
    append_unescaped(scene.alloc, &mut bytes, raw)?;
    convert_error(scene.files.push(SceneFile { path, bytes }))
}

/// Appends `raw` with its escapes decoded, and a newline, to the last file of `scene`.
fn add_line(scene: &mut Scene, raw: &str) -> Result<()> {
    let alloc = scene.alloc;
    let file = require_part(scene.files.last_mut(), "a line without a file")?;
    append_unescaped(alloc, &mut file.bytes, raw)?;
    convert_error(file.bytes.push(b'\n'))
}

/// Adds the keyword and the path in `line` to the paths of `scene`.
fn add_path(scene: &mut Scene, line: &ExampleLine<'_>) -> Result<()> {
    let keyword = convert_error(String::from_str(scene.alloc, line.keyword));
    let path = unescape_text(scene.alloc, line.text).map(Text::into_string);
    push_or_fail(&mut scene.paths, zip_results(keyword, path))
}

/// Parses the range of the calls that fail, counted from 0: `N` for one call, or `N M` for the
/// calls from `N` to `M`. Returns the first number, and the last number plus 1. Allocates nothing.
///
/// # Errors
///
/// - `InvalidExample`: `text` isn't one or two numbers from 0 to 2^32 - 1.
pub fn parse_call_range(text: &str) -> Result<(u32, u32)> {
    let (first, last) = text.split_once(' ').unwrap_or((text, text));
    Ok((parse_count(first)?, parse_count(last)?.saturating_add(1)))
}

/// Adds the file, the script of a child or the path in `line` to `scene`. Timestamps and faults in
/// `line` replace those of `scene`. Other lines are ignored.
fn parse_line(scene: &mut Scene, line: &ExampleLine<'_>) -> Result<()> {
    let text = line.text;
    let (path, rest) = text.split_once(' ').unwrap_or((text, ""));
    match line.keyword {
        "life" => push_or_fail(&mut scene.child_scripts, parse_child_script(text)),
        "holds" | "config" => add_file(scene, path, "", rest),
        "lists" => add_file(scene, path, CASE_LIST_HEADER, rest),
        "Kyuafile" => add_file(scene, "Kyuafile", "", text),
        "file" => add_file(scene, text, "", ""),
        "|" => add_line(scene, text),
        "program" | "locked" | "dear" | "found-file" | "found-program" => add_path(scene, line),
        keyword => set_clock_or_faults(scene, keyword, text),
    }
}

/// Sets the timestamps, the failing calls or the fault of partial reads of `scene` to those in a
/// line. `keyword` is the keyword of the line, and `text` is its text. Fails if a number or the
/// fault in a line `odd` is invalid. Other lines are ignored.
fn set_clock_or_faults(scene: &mut Scene, keyword: &str, text: &str) -> Result<()> {
    let alloc = scene.alloc;
    match keyword {
        "clock" | "moments" => {
            scene.moments = parse_numbers(alloc, text)?;
            scene.step = u64::from(keyword == "clock");
        }
        "now" => scene.clock = parse_numbers(alloc, text)?,
        "fails" => scene.failing_calls = parse_call_range(text)?,
        "refuses" => {
            scene.failing_calls = parse_call_range(text)?;
            scene.no_memory = fail_allocation(alloc).err();
        }
        "odd" if text == "empty part" => scene.part_fault = PartFault::EmptyPart,
        "odd" if text == "gone" => scene.part_fault = PartFault::MissingFile,
        "odd" => return Err(ExampleFault::InvalidExample("there is no such fault of a read")),
        _ => {}
    }
    Ok(())
}

/// Parses the lines of `example` into a scene, and ignores lines that don't describe a system or
/// host files.
///
/// # Errors
///
/// - `InvalidExample`: the text after one of the keywords is invalid, or a line `|` precedes all
///   files.
/// - `NoMemory`: an allocation failed.
pub fn parse_scene(alloc: Global, example: &Example<'_>) -> Result<Scene> {
    let mut scene = Scene::new(alloc);
    scene.default_bytes = example.find_bytes(alloc, "others")?;
    for line in example.lines.as_slice() {
        parse_line(&mut scene, line)?;
    }
    Ok(scene)
}
