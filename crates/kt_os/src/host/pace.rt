ghost use Rattle.std.specs.Prelude.{◌≡◌, ◌↔◌, ◌+◌, ◌-◌, ◌*◌, ◌/◌, ◌^◌, ◌<◌, ◌≤◌, min, IsSomeAnd, IsTrue};
ghost use Rattle.std.specs.Time.{instant_nanos};
ghost use Rattle.std.specs.declared.time.Instant.{Instant as Moment};
ghost use Rattle.kt_os.specs.Host.Lateness.{IsLate};
ghost use Rattle.kt_os.specs.Inner.Host.{IsEarly, IsInFirstHalf, next_slice, check_interval_micros};

use std::rt::Clock;
use std::time::Instant;

/// The greatest length of a pause between two rounds, in microseconds. In a round, each running
/// child is polled once.
pub(crate) const PAUSE_MICROS: u64 = 10_000;

/// Returns the interval at which `children` children are checked for an end, in microseconds.
///
/// `since` is the time since a child last ended, in microseconds. The interval grows with the
/// number of children, because their check takes longer. It grows with `since`, because an end
/// becomes less likely.
fn check_interval_micros(children: usize, since: u64) -> u64
    requires { since < 2 ^ 50 }
    ensures value { result ≡ check_interval_micros children since }
    ensures moves { 0 < result }
{
    let children = children.min(512) as u64;
    let short = (50 + since / 16).min(350);
    let many = 14 * children.saturating_sub(8);
    short.max(many).max(since * (children + 4) / 384)
}

/// The number of newest children that are checked for an end after each slice of a pause. They are
/// more likely to have ended than the others.
pub(crate) const NEWEST_CHILDREN: usize = 8;

/// Returns the length of the next slice of a pause between polls, in microseconds.
///
/// `children` is the number of running children. `micros` is the part of the pause that has passed,
/// in microseconds. `pauses` is the number of pauses since a child last ended.
pub(crate) fn next_slice_micros(children: usize, pauses: u32, micros: u64) -> u64
    requires { micros ≤ 10000 }
    ensures value { result ≡ next_slice children pauses micros }
    ensures moves { micros < 10000 → 0 < result }
    ensures fits { micros + result ≤ 10000 }
{
    let since = PAUSE_MICROS * u64::from(pauses) + micros;
    let many = 3 * (children.min(512) as u64).saturating_sub(8);
    check_interval_micros(children.min(NEWEST_CHILDREN), since)
        .max(many)
        .min(PAUSE_MICROS - micros)
}

/// Returns `true` if it is time to check all `children` running children for an end.
///
/// `micros` is the part of the pause that has passed, and `unlooked` the part since the last check
/// of all children, both in microseconds. `pauses` is the number of pauses since a child last
/// ended.
pub(crate) fn is_time_to_check(children: usize, pauses: u32, micros: u64, unlooked: u64) -> bool
    requires { micros ≤ 10000 }
    ensures { IsTrue result ↔ (check_interval_micros children (10000 * pauses + micros) ≤ unlooked) }
{
    unlooked >= check_interval_micros(children, PAUSE_MICROS * u64::from(pauses) + micros)
}

/// The planned time between two `Running` responses in the second half of those that a timeout
/// allows, in milliseconds. A poll that would return such a response earlier sleeps first.
const RESPONSE_INTERVAL_MILLIS: u128 = 20;

/// A measure of the speed at which a child is polled: its start time, its timeout and the number of
/// its `Running` responses. Such a response is a poll that reported the child as running.
#[derive(Clone, Copy)]
pub(crate) struct Pace {
    /// The time from which the polls are counted, or `None` if the clock failed. It is the time of
    /// the child's creation, of its start or of its kill. Without it, no response is early or late.
    started: Option<Instant>,
    /// The timeout of the child, in seconds. It allows 100 `Running` responses for each second.
    pub(crate) limit: u64,
    /// The number of `Running` responses since the time in `started`.
    responses: u64,
}

/// The number of polls that a child may miss before other children are reported as running without
/// a check.
const MISSED_POLLS_ALLOWED: u128 = 2;

impl Pace {
    /// Creates the pace of a child that is created, started or killed now. `limit` is its timeout
    /// in seconds.
    pub(crate) fn from_now<C: Clock>(limit: u64, clock: &C) -> Pace
        ensures limit { result.limit ≡ limit }
        ensures responses { result.responses ≡ 0 }
    {
        Pace {
            started: Instant::now(clock).ok(),
            limit,
            responses: 0,
        }
    }

    /// Returns `true` if the child was polled too rarely up to the time `now`.
    ///
    /// A child should be polled 100 times a second since its start. It was polled too rarely if
    /// more than two of these polls are missing. Returns `false` after the last poll of its
    /// timeout, and without a start time.
    pub(crate) fn is_late_at(&self, now: Instant) -> bool
        ensures { IsTrue result ↔ IsSomeAnd self.now.started (λ start.
            IsLate self.now.limit self.now.responses
            ((instant_nanos now - instant_nanos start) / 1000000)) }
    {
        let Some(from) = self.started else {
            return false;
        };
        let millis = now.duration_since(from).as_millis();
        let due = (u128::from(self.responses) + MISSED_POLLS_ALLOWED) * 10;
        u128::from(self.responses) < u128::from(self.limit) * 100 && due < millis
    }

    /// Returns `true` if the next `Running` response is in the first half of those that the timeout
    /// allows.
    pub(crate) fn is_in_first_half(&self) -> bool
        ensures { IsTrue result ↔ IsInFirstHalf self.now.limit self.now.responses }
    {
        u128::from(self.responses) + 1 <= u128::from(self.limit) * 50
    }

    /// Returns `true` if a `Running` response at `now` would make the timeout expire early. Returns
    /// `false` without a start time.
    fn is_early_at(&self, now: Instant) -> bool
        ensures { IsTrue result ↔ IsSomeAnd self.now.started (λ start.
            IsEarly self.now.limit self.now.responses
            ((instant_nanos now - instant_nanos start) / 1000000)) }
    {
        let Some(from) = self.started else {
            return false;
        };
        let millis = now.duration_since(from).as_millis();
        let free = u128::from(self.limit) * 1_000;
        let due = (u128::from(self.responses) + 1) * RESPONSE_INTERVAL_MILLIS;
        due > free && due - free > millis
    }

    /// Returns `true` if a `Running` response now would make the timeout expire early. A response
    /// in the first half of those that the timeout allows is never early, so the clock is not read
    /// for it.
    pub(crate) fn is_early<C: Clock>(&self, clock: &C) -> bool
        ensures { IsTrue result → (now : Moment) × IsSomeAnd self.now.started (λ start.
            IsEarly self.now.limit self.now.responses
            ((instant_nanos now - instant_nanos start) / 1000000)) }
    {
        if self.is_in_first_half() {
            return false;
        }
        match Instant::now(clock) {
            Ok(now) => self.is_early_at(now),
            Err(_) => false,
        }
    }

    /// Adds one to the number of `Running` responses.
    pub(crate) fn count_response(&mut self)
        ensures counted { self.new.responses ≡ min (self.old.responses + 1) (2 ^ 64 - 1) }
        ensures limit { self.new.limit ≡ self.old.limit }
        ensures started { self.new.started ≡ self.old.started }
    {
        self.responses = self.responses.saturating_add(1);
    }
}
