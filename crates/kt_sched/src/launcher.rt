use crate::{Ended, Job, StartAnswer};
use kt_base::Role;

/// An interface to start children and to wait for them.
///
/// The ghost relations describe one call: the launcher's states before and after the call, and its
/// response. The contract doesn't mention earlier calls.
pub trait Launcher {
    ghost use Rattle.std.specs.Prelude.{ℕ, Bool, ◌≡◌, Option, Some};
    ghost use Rattle.kt_base.specs.declared.child.Role.{Role};
    ghost use Rattle.kt_sched.specs.declared.job.Job.{Job};
    ghost use Rattle.kt_sched.specs.declared.job.StartAnswer.{StartAnswer};
    ghost use Rattle.kt_sched.specs.declared.job.Ended.{Ended};
    ghost use Rattle.kt_sched.specs.Children.{Child, MayStart, IsEvidence, running_after_start, running_after_end, pending_after_start, pending_after_end};
    ghost use Rattle.kt_base.specs.Moments.{IsMoment};
    ghost use Rattle.kt_sched.specs.Trace.{HasValidTimestamp};
    ghost use Rattle.kt_sched.specs.Plan.{IsStartableJob};

    /// The running child of the case at a position in the plan, in a role, or `None` if no such
    /// child runs. A child is described by the interface of its case, and by whether the case
    /// declares a cleanup.
    ghost running: { Self → ℕ → Role → Option Child };

    /// `true` if the body of the case at a position in the plan ended, and the start of its
    /// declared cleanup was not requested yet.
    ghost pending: { Self → ℕ → Bool };

    /// The relation of the launcher's states before and after the start of a job's body or cleanup,
    /// and of the response to the start.
    ghost starts: { Self → Job → Role → StartAnswer → Self → Type 0 };

    /// The relation of the launcher's states before and after a wait, and of the end that the wait
    /// returns.
    ghost waits: { Self → Ended → Self → Type 0 };

    /// Starts the body or the cleanup of the case of `job`, as `role` selects.
    ///
    /// Returns the timestamp of the start, or the cause of the refusal. A body may start if no
    /// child of its case runs and no cleanup of its case is pending. A cleanup may start only once,
    /// after its body ended.
    fn start(&mut self, job: &Job, role: Role) -> StartAnswer
        requires fit { IsStartableJob job.now }
        requires may { MayStart (running self.old) (pending self.old) job.now.position role }
        ensures leads { starts self.old job.now role result self.new }
        ensures moment { HasValidTimestamp result }
        ensures running { (k : ℕ) (r : Role) → running self.new k r
            ≡ running_after_start (running self.old) job.now role result k r }
        ensures pending { (k : ℕ) → pending self.new k
            ≡ pending_after_start (pending self.old) job.now.position role k };

    /// Waits until a running child has ended or can't be waited for, and returns its end.
    ///
    /// At least one child must run.
    fn wait(&mut self) -> Ended
        requires { (i : ℕ) × (role : Role) × (child : Child)
            × (running self.old i role ≡ Some child) }
        ensures leads { waits self.old result self.new }
        ensures moment { IsMoment result.moment }
        ensures one_that_ran { (child : Child) × (running self.old result.position result.role
            ≡ Some child) × IsEvidence child.interface result.role result.evidence }
        ensures running { (k : ℕ) (r : Role) → running self.new k r
            ≡ running_after_end (running self.old) result k r }
        ensures pending { (k : ℕ) → pending self.new k
            ≡ pending_after_end (running self.old) (pending self.old) result k };
}
