ghost use Rattle.std.specs.Prelude.{◌≡◌, IfOk, IfErr};
ghost use Rattle.kt_cli.specs.Common.{chars, IsIdle, is_among, launcher_child_in, IsFirstWorld, IsNewDriver, FailsToCreateDriver, FailsToCreateRoot, source_directory};

use crate::{HostHandles, HostWorld};
use kt_args::CaseOptions;
use kt_base::{NoMemory, Text, is_absolute};
use kt_child::{Driver, DriverFault};
use kt_os::{HostFiles, Os, ProcessEnv};
use kt_suite::parent_path;
use std::alloc::Global;

/// Returns the absolute path of the directory `directory`, without a slash at its end, so that it is
/// empty for `/`.
///
/// `directory` ends with a slash, or is empty for the working directory. `here` is the absolute
/// path of the working directory.
///
/// # Errors
///
/// - `NoMemory`: an allocation fails.
pub fn absolute_directory(alloc: Global, here: &str, directory: &Text) -> Result<Text, NoMemory>
    ensures { IfOk result (λ source. source ≡ source_directory (chars here.now) directory.now) }
{
    if is_absolute(directory.as_str()) {
        return parent_path(alloc, directory);
    }
    let mut path = Text::from_str(alloc, here)?;
    path.push('/')?;
    path.push_str(directory.as_str())?;
    parent_path(alloc, &path)
}

/// Creates the driver that runs the test programs of the Kyuafile in the directory `directory`. The
/// driver creates its root directory, which contains all work directories, in the directory `work`.
///
/// `here` is the absolute working directory. Fails with `NoWorkDirectory` if `work` is not absolute
/// or the root directory can't be created. Fails with `NoMemory` if an allocation fails. `os` is
/// returned with the error.
fn create_driver<O: Os + Drop>(
    alloc: Global,
    os: O,
    here: &Text,
    work: &Text,
    directory: &Text,
) -> Result<Driver<O>, (DriverFault, O)>
    ensures made { IfOk result (λ driver. IsNewDriver O.Os os here.now work.now directory.now
        driver) }
    ensures idle { IfOk result (λ driver. IsIdle (launcher_child_in driver.running)
        (is_among driver.running.pending)) }
    ensures refused { IfErr result (λ e. FailsToCreateRoot O.Os os work.now e.0 e.1) }
{
    if !is_absolute(work.as_str()) {
        return Err((DriverFault::NoWorkDirectory, os));
    }
    match absolute_directory(alloc, here.as_str(), directory) {
        Ok(source) => Driver::new(alloc, os, work, source),
        Err(refusal) => Err((DriverFault::NoMemory(refusal), os)),
    }
}

/// Creates the world that `list`, `test` or `debug` gets at its start, with a new driver.
///
/// The driver has its own root directory for work directories, which the caller must remove.
/// `around` has the working directory and the environment of the process.
///
/// # Errors
///
/// The driver can't be created. `outside`, the handles of the host, is returned with the error, in
/// its state after the failure.
///
/// - `NoWorkDirectory`: `options.work` is not absolute, or no root directory can be created in it.
/// - `NoMemory`: an allocation fails.
pub fn create_world<M: HostFiles + Drop, O: Os + Drop>(
    outside: HostHandles<M, O>,
    around: ProcessEnv,
    options: &CaseOptions,
) -> Result<HostWorld<M, O>, (DriverFault, HostHandles<M, O>)>
    ensures first { IfOk result (IsFirstWorld O.Os outside around options.now) }
    ensures idle { IfOk result (λ world. IsIdle (launcher_child_in world.driver.running)
        (is_among world.driver.running.pending)) }
    ensures refused { IfErr result (λ e. FailsToCreateDriver O.Os outside options.now.work e.0 e.1) }
{
    let directory = match options.kyuafile.directory().copy() {
        Ok(directory) => directory,
        Err(refusal) => return Err((DriverFault::NoMemory(refusal), outside)),
    };
    let HostHandles { alloc, machine, os } = outside;
    let driver = match create_driver(alloc, os, &around.working_dir, &options.work, &directory) {
        Ok(driver) => driver,
        Err((fault, os)) => return Err((fault, HostHandles { alloc, machine, os })),
    };
    Ok(HostWorld {
        machine,
        directory,
        driver,
        around,
    })
}
