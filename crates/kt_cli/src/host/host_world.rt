ghost use Rattle.std.specs.Prelude.{◌≡◌};
ghost use Rattle.kt_cli.specs.HostReplies.{IsWithinReadLimit, file_answer, file_fault};
ghost use Rattle.kt_os.specs.Machines.{ReadsFile};

use kt_atflist::Listing;
use kt_base::{Bytes, Role, Text, Variables};
use kt_child::Driver;
use kt_os::{FileFault, HostFiles, MAX_PATH_BYTES, Os, ProcessEnv, is_program_found, join_path};
use kt_plan::World;
use kt_sched::{Ended, Job, Launcher, StartAnswer};
use kt_suite::{Program, ReadFault, Tree};

/// A `World` of the host: files, environment, clock, and a driver of test programs.
///
/// The paths of Kyuafiles and test programs are relative to the directory of the command's
/// Kyuafile.
#[derive(Drop)]
pub struct HostWorld<M: Drop, O: Os + Drop> {
    /// The files and the clock of the host.
    pub(crate) machine: M,
    /// The path of the directory of the command's Kyuafile, with a slash at its end, or empty for
    /// the working directory.
    pub(crate) directory: Text,
    /// The driver, which starts test programs and lists their cases.
    pub(crate) driver: Driver<O>,
    /// The working directory and the environment of the process.
    pub(crate) around: ProcessEnv,
}

impl<M: HostFiles + Drop, O: Os + Drop> Tree for HostWorld<M, O> {
    ghost use Rattle.kt_cli.specs.HostReplies.{IsFileCall};

    ghost asks = { IsFileCall M.answers };

    fn read(&mut self, path: &Text) -> Result<Bytes, ReadFault> {
        let mut room = [0u8; MAX_PATH_BYTES];
        match join_path(self.directory.as_str(), "", path.as_str(), &mut room) {
            Some(place) => read_and_peek(&mut self.machine, place),
            None => Err(ReadFault::Failed),
        }
    }

    fn exists(&mut self, path: &Text) -> bool {
        let mut room = [0u8; MAX_PATH_BYTES];
        match join_path(self.directory.as_str(), "", path.as_str(), &mut room) {
            Some(place) => self.machine.is_file(place),
            None => false,
        }
    }
}

impl<M: HostFiles + Drop, O: Os + Drop> Launcher for HostWorld<M, O> {
    ghost use Rattle.kt_cli.specs.Common.{is_among, launcher_child_in, HostStarts, HostWaits};

    ghost running = { λ s. launcher_child_in s.driver.running };

    ghost pending = { λ s. is_among s.driver.running.pending };

    ghost starts = { HostStarts O.leads };

    ghost waits = { HostWaits O.leads };

    fn start(&mut self, job: &Job, role: Role) -> StartAnswer {
        self.driver.start(job, role)
    }

    fn wait(&mut self) -> Ended {
        self.driver.wait()
    }
}

impl<M: HostFiles + Drop, O: Os + Drop> World for HostWorld<M, O> {
    ghost use Rattle.std.specs.Prelude.{◌≡◌};
    ghost use Rattle.kt_cli.specs.Common.{ap, ChildrenState, is_among, launcher_child_in, IsHostReply, file_call_keeps_children, call_keeps_children};

    ghost replies = { IsHostReply M.answers O.leads };

    fn config(&mut self, path: &Text) -> Result<Bytes, ReadFault> {
        read_and_peek(&mut self.machine, path.as_str())
    }

    fn list(&mut self, program: &Program, variables: &Variables) -> Listing {
        self.driver.list(program, variables)
    }

    fn file_exists(&mut self, path: &Text) -> bool {
        self.machine.path_exists(path.as_str())
    }

    fn program_found(&mut self, name: &Text) -> bool {
        is_program_found(&mut self.machine, &self.around.path, name)
    }

    fn is_root(&mut self) -> bool {
        self.around.is_root()
    }

    fn memory(&mut self) -> Option<u64> {
        None
    }

    fn disk(&mut self) -> Option<u64> {
        None
    }

    fn now(&mut self) -> u64 {
        self.machine.moment()
    }

    ghost tree_keeps_running = { λ s t q h k r. ap (λ (b : ChildrenState). launcher_child_in b k r)
        (file_call_keeps_children M.answers s t q h) };

    ghost tree_keeps_pending = { λ s t q h k. ap (λ (b : ChildrenState). is_among b.pending k)
        (file_call_keeps_children M.answers s t q h) };

    ghost host_keeps_running = { λ s t q h k r. ap (λ (b : ChildrenState). launcher_child_in b k r)
        (call_keeps_children M.answers O.leads s t q h) };

    ghost host_keeps_pending = { λ s t q h k. ap (λ (b : ChildrenState). is_among b.pending k)
        (call_keeps_children M.answers O.leads s t q h) };
}

/// Converts `fault`, a fault of the host's files, to the fault that a world returns for the read of
/// a Kyuafile or the configuration file.
fn convert_file_fault(fault: FileFault) -> ReadFault
    ensures { file_fault result ≡ fault }
{
    match fault {
        FileFault::Missing => ReadFault::Missing,
        FileFault::Failed => ReadFault::Failed,
        FileFault::Memory(refusal) => ReadFault::Memory(refusal),
    }
}

/// Reads the first 1,048,577 bytes of the regular file at `path`, or all bytes if they are fewer.
///
/// Fails if the file is missing or can't be read, or if an allocation fails.
fn read_and_peek<M: HostFiles>(machine: &mut M, path: &str) -> Result<Bytes, ReadFault>
    ensures answered { M.answers machine.old (ReadsFile path.now (file_answer result)) machine.new }
    ensures short { IsWithinReadLimit result }
{
    match machine.read_start(path) {
        Ok(bytes) => Ok(bytes),
        Err(fault) => Err(convert_file_fault(fault)),
    }
}
