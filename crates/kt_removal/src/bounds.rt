ghost use Rattle.std.specs.Prelude.{◌≡◌, ◌↔◌, ◌≤◌, ◌+◌, ◌-◌, ◌^◌, min, IsTrue};
ghost use Rattle.kt_removal.specs.Common.{IsSpent, root_limit_micros, case_limit_micros, min_root_steps};

use std::rt::Clock;
use std::time::Instant;

/// The time limit for the removal of a case's directory, in microseconds.
const CASE_LIMIT_MICROS: u64 = 5_000;

/// The time that is counted for each step of a removal if the clock fails, in microseconds.
const STEP_MICROS: u64 = 100;

/// A time limit of a removal, with the number of steps that the removal has taken.
///
/// In a step, the removal reads some names of a directory and removes the entries with these names.
#[derive(Clone, Copy)]
pub(crate) struct RemovalLimit {
    /// The start time of the removal, or `None` if the clock failed.
    started: Option<Instant>,
    /// The time limit, in microseconds. It is also the maximum number of iterations of each loop of
    /// the removal, since a clock may stop.
    pub(crate) micros: u64,
    /// The minimum number of steps before the time limit can stop the removal.
    pub(crate) min_steps: u64,
    /// The number of steps that the removal has taken so far.
    steps: u64,
}

/// Returns `true` if a removal has used up its time limit of `micros` microseconds.
///
/// `taken` is the time since the start of the removal, in microseconds. If it is `None`, the clock
/// failed, and each of the `steps` steps counts as 100 microseconds.
fn is_spent(micros: u64, steps: u64, taken: Option<u128>) -> bool
    ensures { IsTrue result ↔ IsSpent micros steps taken }
{
    match taken {
        Some(taken) => taken >= u128::from(micros),
        None => steps >= micros / STEP_MICROS,
    }
}

/// Returns the time limit for the removal of the root directory of all attempts, in microseconds.
///
/// The limit is 5 seconds, plus 10 milliseconds for each of the `waiting` directories in the
/// removal queue.
fn root_limit_micros(waiting: u32) -> u64
    ensures { result ≡ root_limit_micros waiting }
{
    5_000_000 + 10_000 * u64::from(waiting)
}

/// Returns the minimum number of steps before the time limit can stop the removal of the root
/// directory.
///
/// In a step, the removal reads some names of a directory and removes the entries with these names.
/// The minimum is 20,000, plus 50 for each of the `waiting` directories in the removal queue. It
/// lets a slow machine finish the removal.
fn min_root_steps(waiting: u32) -> u64
    ensures { result ≡ min_root_steps waiting }
{
    20_000 + 50 * u64::from(waiting)
}

impl RemovalLimit {
    /// Creates a time limit of `micros` microseconds from now.
    pub(crate) fn from_now<C: Clock>(clock: &C, micros: u64) -> RemovalLimit
        ensures micros { result.micros ≡ micros }
        ensures min_steps { result.min_steps ≡ 0 }
        ensures steps { result.steps ≡ 0 }
    {
        RemovalLimit {
            started: Instant::now(clock).ok(),
            micros,
            min_steps: 0,
            steps: 0,
        }
    }

    /// Creates the time limit for the removal of a case's directory: 5 milliseconds from now.
    pub(crate) fn case_limit<C: Clock>(clock: &C) -> RemovalLimit
        ensures micros { result.micros ≡ case_limit_micros }
        ensures min_steps { result.min_steps ≡ 0 }
    {
        RemovalLimit::from_now(clock, CASE_LIMIT_MICROS)
    }

    /// Creates the time limit for the removal of the root directory of all attempts.
    ///
    /// `waiting` is the number of directories in the removal queue, each of which extends the
    /// limit.
    pub(crate) fn root_limit<C: Clock>(clock: &C, waiting: u32) -> RemovalLimit
        ensures micros { result.micros ≡ root_limit_micros waiting }
        ensures min_steps { result.min_steps ≡ min_root_steps waiting }
        ensures steps { result.steps ≡ 0 }
    {
        RemovalLimit {
            started: Instant::now(clock).ok(),
            micros: root_limit_micros(waiting),
            min_steps: min_root_steps(waiting),
            steps: 0,
        }
    }

    /// Returns the time since the start of the removal in microseconds, or `None` if the clock
    /// failed.
    fn elapsed_micros<C: Clock>(&self, clock: &C) -> Option<u128> {
        let started = self.started?;
        let now = Instant::now(clock).ok()?;
        Some(now.duration_since(started).as_micros())
    }

    /// Returns the time since the start of the removal in microseconds, or 0 if the clock failed.
    pub(crate) fn elapsed_micros_or_zero<C: Clock>(&self, clock: &C) -> u64 {
        let taken = self.elapsed_micros(clock).unwrap_or(0);
        u64::try_from(taken).unwrap_or(u64::MAX)
    }

    /// Counts a step of the removal, and returns `true` if the removal must stop after this step.
    pub(crate) fn must_stop_after_step<C: Clock>(&mut self, clock: &C) -> bool
        ensures min_steps { IsTrue result → self.old.min_steps ≤ self.new.steps }
        ensures counted { self.new.steps ≡ min (self.old.steps + 1) (2 ^ 64 - 1) }
    {
        self.steps = self.steps.saturating_add(1);
        self.steps >= self.min_steps
            && is_spent(self.micros, self.steps, self.elapsed_micros(clock))
    }
}
