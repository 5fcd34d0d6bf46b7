ghost use Rattle.kt_os.specs.Machines.{HasProgram, IsProgramFound, SearchesDirectories, directories};

use crate::HostFiles;
use crate::machine::host_path::{MAX_PATH_BYTES, join_path};
use kt_base::{Text, has_slash, is_absolute};

/// Returns `true` if `directory` has an executable regular file `name`. An empty `directory` is the
/// working directory. Returns `false` if the joined path is longer than 4,095 bytes.
fn has_program<M: HostFiles>(machine: &mut M, directory: &str, name: &str) -> bool
    ensures { HasProgram M.answers name.now directory.now result machine.old machine.new }
{
    let mut room = [0u8; MAX_PATH_BYTES];
    let between = if directory.is_empty() { "" } else { "/" };
    match join_path(directory, between, name, &mut room) {
        Some(path) => machine.is_program(path),
        None => false,
    }
}

/// Returns `true` if a directory in `among`, a list separated by colons, has an executable regular
/// file `name`.
fn is_program_in_path<M: HostFiles>(machine: &mut M, among: &str, name: &str) -> bool
    ensures { SearchesDirectories M.answers name.now (directories among.now) result machine.old
        machine.new }
{
    let mut rest = among;
    while let Some((directory, behind)) = rest.split_once(':') {
        if has_program(machine, directory, name) {
            return true;
        }
        rest = behind;
    }
    has_program(machine, rest, name)
}

/// Returns `true` if the required program `name` exists (`required_programs` of kyuafile(5)).
///
/// A program is an executable regular file. An absolute `name` must be the path of a program. A
/// `name` without a slash must be a program in a directory of `path`, the value of `PATH`. Other
/// names are never found.
pub fn is_program_found<M: HostFiles>(machine: &mut M, path: &Option<Text>, name: &Text) -> bool
    ensures { IsProgramFound M.answers path.now name.now result machine.old machine.new }
{
    let word = name.as_str();
    if is_absolute(word) {
        return machine.is_program(word);
    }
    if has_slash(word) {
        return false;
    }
    match path {
        Some(among) => is_program_in_path(machine, among.as_str(), word),
        None => false,
    }
}
