use crate::OsFault;
use crate::host::command::{ProgramStart, spawn};
use crate::host::into_os_result;
use crate::host::pace::Pace;
use std::fs::File;
use std::process::{ExitStatus, OpenProcess, Processes};
use std::rt::Clock;
use std::time::{Duration, Instant};
use std::{process, thread};

/// The greatest number of sleeps in one poll, each of one millisecond. After 20 sleeps, a `Running`
/// response can no longer make the timeout expire early.
const MAX_POLL_SLEEPS: u32 = 20;

/// The timeout of a child after its kill, in seconds. It determines the times of the polls, and
/// allows 500 `Running` responses.
const KILLED_LIMIT_SECONDS: u64 = 5;

/// A child of the host. It exists from the creation of its first output file until its end is
/// reported, or until its start fails.
pub(crate) struct HostChild<P: OpenProcess> {
    /// The open file for the child's standard output, until the child is started.
    out: Option<File>,
    /// The open file for the child's standard error, until the child is started.
    err: Option<File>,
    /// The two output files of the child, or `None` before its start. They stay open at least until
    /// the outputs have been read, so that no process can take a lease on them (fcntl(2)).
    output_copies: Option<(File, File)>,
    /// The process of the child, or `None` before its start.
    process: Option<process::Child<P>>,
    /// The start time and the timeout of the child, and the number of its `Running` responses. They
    /// decide whether a poll is late or must sleep.
    pace: Pace,
    /// `true` if the end of the child was found, or if a check of its process failed.
    end_found: bool,
}

/// A manual impl instead of `#[derive(Drop)]`, so that the prover handles each drop as one call.
impl<P: OpenProcess + Drop> Drop for HostChild<P> {
    fn drop(self) {
        let HostChild {
            out: _,
            err: _,
            output_copies: _,
            process,
            pace: _,
            end_found: _,
        } = self;
        drop(process);
    }
}

impl<P: OpenProcess + Drop> HostChild<P> {
    ghost use Rattle.std.specs.Prelude.{◌≡◌, ◌↔◌, ◌+◌, ◌-◌, ◌^◌, min, Some, None, Ok, true, false, IsTrue, IsSome, IsNone, IsOk, IsErr, IfOk, OnOk};
    ghost use Rattle.kt_os.specs.Common.{IsInFirstHalf, IsLateAt, Proceeds, MayBeRunning, process_state};
    ghost use Rattle.std.specs.declared.process.status.ExitStatus.{ExitStatus as Status};

    /// Creates a child without a process. `limit` is its timeout in seconds, and `out` the file for
    /// its standard output.
    pub(crate) fn new<C: Clock>(limit: u64, out: File, clock: &C) -> HostChild<P>
        ensures out { result.out ≡ Some out }
        ensures err { result.err ≡ None }
        ensures stands { process_state result ≡ None }
        ensures limit { result.pace.limit ≡ limit }
        ensures unseen { result.end_found ≡ false }
    {
        HostChild {
            out: Some(out),
            err: None,
            output_copies: None,
            process: None,
            pace: Pace::from_now(limit, clock),
            end_found: false,
        }
    }

    /// Returns `true` if the child was not started and has only the open file for its standard
    /// output.
    pub(crate) fn is_stderr_next(&self) -> bool
        ensures { IsTrue result ↔ (IsSome self.now.out × IsNone self.now.err
            × (process_state self.now ≡ None)) }
    {
        self.out.is_some() && self.err.is_none() && self.process.is_none()
    }

    /// Stores an opened output file of the child.
    ///
    /// The file is for standard error if the child has only the file for standard output.
    /// Otherwise, a new child replaces this child, with the file for its standard output and a
    /// timeout of `limit` seconds.
    pub(crate) fn keep_file<C: Clock>(&mut self, limit: u64, file: File, clock: &C)
        ensures stands { process_state self.new ≡ None }
    {
        if self.is_stderr_next() {
            self.err = Some(file);
        } else {
            *self = HostChild::new(limit, file, clock);
        }
    }

    /// Starts the program that `asked` describes, with an empty standard input and the two output
    /// files of the child.
    ///
    /// Fails if one of the files is not open, if the system can't start the program, or if an
    /// allocation fails.
    pub(crate) fn launch<R: Processes<Started = P> + Clock + AllocGlobal>(
        &mut self,
        rt: &R,
        asked: ProgramStart<'_>,
    ) -> Result<(), OsFault>
        ensures started { OnOk result (IsSome (process_state self.new)) }
        ensures reset { OnOk result (self.new.pace.responses ≡ 0) }
    {
        let Some((out, err)) = self.out.take().zip(self.err.take()) else {
            return Err(OsFault::Failed);
        };
        let output_copies = (
            into_os_result(out.try_clone())?,
            into_os_result(err.try_clone())?,
        );
        drop(self.process.replace(spawn(rt, asked, out, err)?));
        self.output_copies = Some(output_copies);
        self.pace = Pace::from_now(self.pace.limit, rt);
        Ok(())
    }

    /// Returns the exit status of the child, or `None` if it is running.
    ///
    /// Once the child has ended, later calls return the same status. Fails if the child was not
    /// started or can't be waited for.
    fn status(&mut self) -> Result<Option<ExitStatus>, OsFault>
        ensures proceeds { Proceeds (process_state self.old) (process_state self.new) }
        ensures stands { IfOk result (λ status. process_state self.new ≡ Some status) }
        ensures pace { self.new.pace ≡ self.old.pace }
        ensures end_found { IfOk result (λ status. IsSome status → self.new.end_found ≡ true) }
    {
        let answer = match &mut self.process {
            Some(process) => into_os_result(process.try_wait()),
            None => return Err(OsFault::Failed),
        };
        if !matches!(answer, Ok(None)) {
            self.end_found = true;
        }
        answer
    }

    /// Returns `true` if the child has missed more than two polls by `now`, at 100 polls a second.
    ///
    /// Returns `false` if the child was not started, if its end was found, or after the last poll
    /// of its timeout.
    pub(crate) fn is_late_at(&self, now: Instant) -> bool
        ensures { IsTrue result ↔ IsLateAt now self.now }
    {
        !self.end_found && self.process.is_some() && self.pace.is_late_at(now)
    }

    /// Returns `true` if the next poll reports the child as running without a check of its process.
    ///
    /// Three conditions must hold. `late` is `true`: some child is polled late. The child has a
    /// process whose end was not found. The next `Running` response is in the first half of those
    /// that the timeout allows.
    fn is_assumed_running(&self, late: bool) -> bool
        ensures runs { IsTrue result → IsSome (process_state self.now) }
        ensures late { IsTrue result → IsTrue late }
        ensures free { IsTrue result → IsInFirstHalf self.now.pace.limit self.now.pace.responses }
    {
        late && !self.end_found && self.process.is_some() && self.pace.is_in_first_half()
    }

    /// Returns the exit status of the child, or `None` if it is running.
    ///
    /// `None` counts as a `Running` response. While such a response would make the timeout expire
    /// early, the poll sleeps. `late` is `true` if some child is polled late. `None` may then be
    /// returned without a check. Fails if the child was not started or can't be waited for.
    pub(crate) fn poll<C: Clock>(
        &mut self,
        late: bool,
        clock: &C,
    ) -> Result<Option<ExitStatus>, OsFault>
        ensures proceeds { Proceeds (process_state self.old) (process_state self.new) }
        ensures ended { IfOk result (λ status. IsSome status
            → process_state self.new ≡ Some status) }
        ensures running { result ≡ Ok None
            → MayBeRunning late (process_state self.old)
            × (process_state self.new ≡ process_state self.old) }
        ensures counted { result ≡ Ok None → self.new.pace.responses
            ≡ min (self.old.pace.responses + 1) (2 ^ 64 - 1) }
    {
        if self.is_assumed_running(late) {
            self.pace.count_response();
            return Ok(None);
        }
        // An early `Running` response would shorten the timeout, so sleep first.
        for _ in 0..MAX_POLL_SLEEPS {
            if !self.pace.is_early(clock) || self.status()?.is_some() {
                break;
            }
            thread::sleep(clock, Duration::from_millis(1));
        }
        let status = self.status()?;
        if status.is_none() {
            self.pace.count_response();
        }
        Ok(status)
    }

    /// Kills the child. The polls after the kill are timed as for a child with a timeout of 5
    /// seconds.
    ///
    /// Fails if the child was not started or the system can't kill it.
    pub(crate) fn kill<C: Clock>(&mut self, clock: &C) -> Result<(), OsFault>
        ensures stands { process_state self.new ≡ process_state self.old }
        ensures had { OnOk result (IsSome (process_state self.old)) }
        ensures ended { (status : Status) → process_state self.old ≡ Some (Some status)
            → IsOk result }
        ensures limit { OnOk result (self.new.pace.limit ≡ 5) }
        ensures reset { OnOk result (self.new.pace.responses ≡ 0) }
    {
        match &mut self.process {
            Some(process) => into_os_result(process.kill())?,
            None => return Err(OsFault::Failed),
        }
        self.pace = Pace::from_now(KILLED_LIMIT_SECONDS, clock);
        Ok(())
    }

    /// Returns `true` if the child has ended and no earlier call found its end. The next poll
    /// returns the exit status.
    pub(crate) fn detect_new_end(&mut self) -> bool
        ensures proceeds { Proceeds (process_state self.old) (process_state self.new) }
        ensures unseen { IsTrue result → self.old.end_found ≡ false }
        ensures end_found { IsTrue result → self.new.end_found ≡ true }
        ensures ended { IsTrue result → ((status : Status)
            × (process_state self.new ≡ Some (Some status))) }
    {
        !self.end_found && matches!(self.status(), Ok(Some(_)))
    }
}
