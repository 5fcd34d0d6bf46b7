ghost use Rattle.std.specs.Prelude.{◌≡◌, ◌≤◌, ℕ, Result, IfOk, length};
ghost use Rattle.std.specs.Path.{path_buf_bytes};
ghost use Rattle.std.specs.Result.{result_map_both};
ghost use Rattle.std.specs.declared.env.FillError.{FillError as FillFault};
ghost use Rattle.kt_os.specs.Around.{IsProcessEnv, IsWorkingDirectory, IsVariableValue, IsVariable};
ghost use Rattle.kt_os.specs.Inner.Variables.{longest_variable};

use crate::OsFault;
use kt_base::{NoMemory, Text};
use std::alloc::Global;
use std::env::FillError;
use std::path::PathBuf;
use std::rt::Env;
use std::{env, io};

/// The maximum length of an environment variable, in bytes. Linux rejects a longer one
/// (`MAX_ARG_STRLEN`).
const MAX_VARIABLE_BYTES: usize = 131_072;

/// A copy of the working directory of this process, and of its environment variables `PATH` and
/// `USER`.
#[derive(Drop)]
pub struct ProcessEnv {
    /// The absolute path of the working directory.
    pub working_dir: Text,
    /// The value of `PATH`, if it is set and is UTF-8: the directories in which programs are looked
    /// up.
    pub path: Option<Text>,
    /// The value of `USER`, if it is set and is UTF-8. It decides whether the user is root.
    pub user: Option<Text>,
}

/// Copies the value of an environment variable from the start of the buffer `room`. `answer` is the
/// length of the value, or the error of reading the variable.
///
/// Returns `None` if the variable is not set, is not UTF-8 or is longer than the buffer.
fn decode_variable(
    alloc: Global,
    answer: Result<usize, FillError>,
    room: &[u8],
) -> Result<Option<Text>, NoMemory>
    requires { IfOk answer (λ count. count ≤ length room.now) }
    ensures { IsVariable answer room.now result }
{
    let Ok(count) = answer else {
        return Ok(None);
    };
    match str::from_utf8(&room[..count]) {
        Ok(value) => Ok(Some(Text::from_str(alloc, value)?)),
        Err(_) => Ok(None),
    }
}

/// Reads the environment variable `name` with the buffer `room`.
///
/// Returns `None` if the variable is not set, is not UTF-8 or is longer than the buffer.
fn read_variable<R: Env + AllocGlobal>(
    rt: &R,
    name: &str,
    room: &mut [u8],
) -> Result<Option<Text>, NoMemory>
    requires { length room.old ≡ longest_variable }
    ensures room { length room.new ≡ length room.old }
    ensures value { (answer : Result ℕ FillFault) × IsVariable answer room.new result }
{
    let answer = rt.var(name, room);
    decode_variable(rt.alloc(), answer, room)
}

/// Copies the path of the working directory from `answer`, the result of the system's call.
///
/// Fails with `Memory` if an allocation failed, and with `Failed` if the system returned another
/// error.
fn copy_working_directory(alloc: Global, answer: io::Result<PathBuf>) -> Result<Text, OsFault>
    ensures { IsWorkingDirectory (result_map_both path_buf_bytes (λ error. error) answer) result }
{
    match answer {
        Ok(working_dir) => Text::from_str(alloc, working_dir.as_str()).map_err(OsFault::Memory),
        Err(error) => match NoMemory::from_io_error(&error) {
            Some(refusal) => Err(OsFault::Memory(refusal)),
            None => Err(OsFault::Failed),
        },
    }
}

impl ProcessEnv {
    ghost use Rattle.kt_os.specs.Around.{is_root};

    /// Reads `PATH` and `USER` from the environment, and stores them with `working_dir`, the
    /// absolute path of the working directory.
    ///
    /// A variable that is not UTF-8 or has more than 131,072 bytes counts as not set.
    ///
    /// # Errors
    ///
    /// - `NoMemory`: an allocation fails.
    pub fn new<R: Env + AllocGlobal>(rt: &R, working_dir: Text) -> Result<ProcessEnv, NoMemory>
        ensures working_dir { IfOk result (λ around. around.working_dir ≡ working_dir) }
        ensures path { IfOk result (λ around. IsVariableValue around.path) }
        ensures user { IfOk result (λ around. IsVariableValue around.user) }
    {
        let mut room = vec![in rt.alloc(); 0u8; MAX_VARIABLE_BYTES]?;
        let path = read_variable(rt, "PATH", &mut room)?;
        let user = read_variable(rt, "USER", &mut room)?;
        Ok(ProcessEnv {
            working_dir,
            path,
            user,
        })
    }

    /// Reads the working directory and the environment of this process.
    ///
    /// # Errors
    ///
    /// - `Failed`: the system returned no working directory.
    /// - `Memory`: an allocation fails.
    pub fn from_process<R: Env + AllocGlobal>(rt: &R) -> Result<ProcessEnv, OsFault>
        ensures { IsProcessEnv result }
    {
        let working_dir = copy_working_directory(rt.alloc(), env::current_dir(rt))?;
        match ProcessEnv::new(rt, working_dir) {
            Ok(around) => Ok(around),
            Err(refusal) => Err(OsFault::Memory(refusal)),
        }
    }

    /// Returns `true` if the value of `USER` is `root`.
    #[tactic(auto, unfolding(crate::proofs::Common::chars))]
    pub fn is_root(&self) -> bool
        ensures { result ≡ is_root self.now.user }
    {
        match &self.user {
            Some(user) => user.is_equal_to("root"),
            None => false,
        }
    }
}
