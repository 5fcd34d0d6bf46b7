ghost use Rattle.kt_os.specs.Common.{status_bits, DecodesWaitStatus};

use crate::host::background::Background;
use crate::host::children::Children;
use crate::host::command::ProgramStart;
use crate::host::host_child::HostChild;
use crate::host::outputs::{Rights, create_directory, create_output, create_root};
use crate::host::reads::{open_regular_file, open_unleased_file, read_open_file};
use crate::host::{children, into_os_result, os_fault_of};
use crate::{Child, ChildState, EnvPlan, FileRead, Os, OsFault};
use kt_base::{Items, Text};
use kt_removal::Removals;
use std::fs::File;
use std::os::unix::process::ExitStatusExt;
use std::process::{ExitStatus, Processes};
use std::rt::{Clock, Files};
use std::time::SystemTime;

/// The number of pauses after which the check for late children is repeated, if no child ended in
/// them.
const PAUSES_PER_LATE_CHECK: u32 = 8;

/// An `Os` of the host, with the processes, files and clocks of the standard library.
///
/// A pause ends when a child has ended, or after 10 milliseconds. While a child is polled late, a
/// pause returns at once. If a `Running` response would make the timeout expire early, the poll
/// sleeps first. The first directory that is created is the root of all others. A long removal
/// continues in pauses and in later removals.
///
/// An end is reported only for a child with a process, by the wait status of that process. The
/// environment of a child is the runner's environment with the changes of an `EnvPlan`. A read
/// begins at its position in the file, and ends at its limit or at its first error.
#[derive(Drop)]
pub struct HostOs<R: Processes, B> {
    /// The runtime handle, which gives access to processes, files and clocks.
    rt: R,
    /// The work that the program does while children run. It advances at each start and each pause.
    background: B,
    /// The directories that wait for their removal, or `None` before the driver's root directory is
    /// created.
    removals: Option<Removals>,
    /// The facts that decide the modes of later directories and files: the owner of the driver's
    /// root directory, and the effect of the umask.
    rights: Rights,
    /// The timeout of the next child in seconds, as it was last set.
    limit: u64,
    /// The children of the host, by their names.
    children: Children<R::Started>,
    /// The child whose end was reported last, with its name, or `None` before the first end. A
    /// contract refers to it.
    last: Option<(Child, HostChild<R::Started>)>,
    /// The number of pauses since the end of a child was last found.
    pauses_since_end: u32,
    /// The result of the last check for a child that is polled late (`IsLate`), or `None` if the
    /// check must be repeated.
    late: Option<bool>,
}

/// Returns the exit status or the signal in the wait status `status` of a child. Fails if the wait
/// status has neither.
fn decode_wait_status(status: ExitStatus) -> Result<ChildState, OsFault>
    ensures { DecodesWaitStatus (status_bits status) result }
{
    if let Some(code) = status.code() {
        let code = u8::try_from(code).or(Err(OsFault::Failed))?;
        return Ok(ChildState::Exited(code));
    }
    if let Some(signal) = status.signal() {
        let signal = u8::try_from(signal).or(Err(OsFault::Failed))?;
        // Bit 7 of a wait status reports a core dump (wait(2)).
        let core = status.into_raw().cast_unsigned() / 128 % 2 == 1;
        return Ok(ChildState::Signaled(signal, core));
    }
    Err(OsFault::Failed)
}

impl<R: Processes + AllocGlobal + Drop, B> HostOs<R, B> {
    ghost use Rattle.std.specs.Prelude.{◌≡◌, None};
    ghost use Rattle.kt_os.specs.Common.{process_state_in};
    ghost use Rattle.kt_os.specs.declared.system.Child.{Child as Name};

    /// Creates an `Os` of the host that has no children. `background` is the work that the program
    /// does while children run.
    pub fn new(rt: R, background: B) -> HostOs<R, B>
        ensures { (c : Name) → process_state_in result.children.entries c ≡ None }
    {
        HostOs {
            children: Children::new(rt.alloc()),
            rt,
            background,
            removals: None,
            rights: Rights::NONE,
            limit: 0,
            last: None,
            pauses_since_end: 0,
            late: None,
        }
    }
}

impl<R: Processes + Clock + AllocGlobal + Drop, B> HostOs<R, B> {
    ghost use Rattle.std.specs.Prelude.{◌≡◌, Some};
    ghost use Rattle.kt_os.specs.Common.{UpdatesLateCheck};

    /// Returns `true` if some child is polled late. The result of the last check is used until a
    /// poll or a pause clears it.
    fn check_late_children(&mut self) -> bool
        ensures children { self.new.children ≡ self.old.children }
        ensures limit { self.new.limit ≡ self.old.limit }
        ensures last { self.new.last ≡ self.old.last }
        ensures late { self.new.late ≡ Some result }
        ensures looks { UpdatesLateCheck self.old.children.entries self.old.late self.new.late }
    {
        let late = match self.late {
            Some(late) => late,
            None => children::has_late_child(&self.children, &self.rt),
        };
        self.late = Some(late);
        late
    }
}

impl<R, B> Os for HostOs<R, B>
where
    R: Processes + Files<File = File> + Clock + AllocGlobal + Clone + Drop,
    B: Background + Drop,
{
    // Specification: `leads` is about the states of the children, the last reported end, the last
    // check for late children, and the timeout of the next child.
    ghost use Rattle.std.specs.Prelude.{◌≡◌};
    ghost use Rattle.kt_os.specs.Common.{IsLastEnd, UpdatesLateCheck, process_state_in, HostLeads, limit_after};

    ghost leads = { λ old call new. HostLeads (process_state_in old.children.entries) call
        (process_state_in new.children.entries) (IsLastEnd new.last) new.late
        × (new.limit ≡ limit_after call old.limit)
        × UpdatesLateCheck old.children.entries old.late new.late };

    fn set_limit(&mut self, _child: Child, limit: u64) {
        self.limit = limit;
    }

    fn make_dir(&mut self, path: &Text) -> Result<(), OsFault> {
        if self.removals.is_some() {
            return into_os_result(create_directory(&self.rt, path.as_str(), self.rights));
        }
        let (removals, rights) = create_root(&self.rt, path)?;
        drop(self.removals.replace(removals));
        self.rights = rights;
        Ok(())
    }

    fn remove_tree(&mut self, path: &Text) -> Result<(), OsFault> {
        let gone = match &mut self.removals {
            Some(removals) => removals.remove_tree(&self.rt, path),
            None => false,
        };
        if gone { Ok(()) } else { Err(OsFault::Failed) }
    }

    fn open_output(&mut self, child: Child, path: &Text) -> Result<(), OsFault> {
        let second = children::is_stderr_next(&self.children, child);
        match create_output(&self.rt, path.as_str(), second, self.rights) {
            Ok(file) => {
                children::keep_output(&mut self.children, child, self.limit, file, &self.rt)?;
                Ok(())
            }
            Err(error) => {
                drop(children::remove_child(&mut self.children, child));
                Err(os_fault_of(&error))
            }
        }
    }

    fn spawn(
        &mut self,
        child: Child,
        program: &Text,
        words: &Items<Text>,
        env: &EnvPlan,
        dir: &Text,
    ) -> Result<(), OsFault> {
        self.background.advance();
        let asked = ProgramStart {
            program,
            args: words,
            env,
            working_dir: dir,
        };
        let launched = children::launch(&mut self.children, child, &self.rt, asked);
        if launched.is_err() {
            drop(children::remove_child(&mut self.children, child));
        }
        launched
    }

    fn poll(&mut self, child: Child) -> Result<ChildState, OsFault> {
        let late = self.check_late_children();
        let Some(held) = self.children.get_mut(&child) else {
            return Err(OsFault::Failed);
        };
        match held.poll(late, &self.rt) {
            Err(fault) => Err(fault),
            Ok(None) => Ok(ChildState::Running),
            Ok(Some(status)) => {
                self.late = None;
                self.last = children::remove_child(&mut self.children, child);
                self.pauses_since_end = 0;
                decode_wait_status(status)
            }
        }
    }

    fn kill(&mut self, child: Child) -> Result<(), OsFault> {
        children::kill(&mut self.children, child, &self.rt)
    }

    fn pause(&mut self) -> Result<(), OsFault> {
        self.background.advance();
        let late = self.late == Some(true);
        // Return at once, so that the late children are polled again.
        if late {
            self.late = None;
            return Ok(());
        }
        if self.pauses_since_end % PAUSES_PER_LATE_CHECK == 0 {
            self.late = None;
        }
        let pauses = self.pauses_since_end;
        let ended = children::await_end(&mut self.children, &mut self.removals, &self.rt, pauses);
        self.pauses_since_end = if ended { 0 } else { pauses.saturating_add(1) };
        Ok(())
    }

    fn read_file(&mut self, path: &Text, limit: u64) -> Result<FileRead, OsFault> {
        let opened = open_regular_file(&self.rt, path.as_str());
        read_open_file(self.rt.alloc(), opened, 0, limit)
    }

    fn read_part(&mut self, path: &Text, from: u64, limit: u64) -> Result<FileRead, OsFault> {
        let opened = open_unleased_file(&self.rt, path.as_str());
        read_open_file(self.rt.alloc(), opened, from, limit)
    }

    fn now(&mut self) -> Result<u64, OsFault> {
        let now = into_os_result(SystemTime::now(&self.rt))?;
        match now.duration_since(SystemTime::UNIX_EPOCH) {
            Ok(since) => u64::try_from(since.as_millis()).or(Err(OsFault::Failed)),
            Err(_) => Err(OsFault::Failed),
        }
    }
}
