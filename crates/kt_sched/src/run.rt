ghost use Rattle.std.specs.Prelude.{◌≡◌};
ghost use Rattle.kt_sched.specs.Common.{IsIdle, IsPlan, IsWidth, RunsPlan};

use crate::count::count_entry;
use crate::{Job, Launcher, Next, RunFault, Sched, Sink, SinkFault, Totals};
use kt_base::Items;
use std::alloc::Global;

/// Executes a plan's cases, at most `width` at once, and puts the entry of each case into a sink.
///
/// Returns the counts of the entries that were put, by their verdicts.
///
/// The function itself doesn't allocate after its first call of the launcher.
///
/// # Errors
///
/// - `NoMemory`: an allocation fails before the first launcher call.
/// - `SinkFailed`: a put fails. Then no more bodies are started and no more entries are put. Before
///   the function returns, it waits for each running child and requests the declared cleanup of
///   each body that ended.
pub fn run_cases<L: Launcher, S: Sink>(
    alloc: Global,
    plan: Items<Job>,
    width: u32,
    launcher: &mut L,
    sink: &mut S,
) -> Result<Totals, RunFault>
    requires plan { IsPlan plan }
    requires width { IsWidth width }
    requires idle { IsIdle (L.running launcher.old) (L.pending launcher.old) }
    ensures ran { RunsPlan L.Launcher S.Sink plan width launcher.old launcher.new sink.old
        sink.new result }
    ensures idle { IsIdle (L.running launcher.new) (L.pending launcher.new) }
{
    let mut sched = Sched::new(alloc, plan, width)?;
    let mut totals = Totals::new();
    let mut fault: Option<SinkFault> = None;
    loop {
        match sched.next() {
            Next::Start(i, role) => {
                let answer = launcher.start(sched.job(i), role);
                sched.record_start(i, role, answer);
            }
            Next::Wait => {
                let ended = launcher.wait();
                sched.record_end(ended);
            }
            Next::Put(i) => {
                let entry = sched.take(i);
                let more = count_entry(totals, entry.verdict.kind());
                match sink.put(entry) {
                    Ok(()) => {
                        sched.record_put(i, false);
                        totals = more;
                    }
                    Err(cause) => {
                        sched.record_put(i, true);
                        fault = Some(cause);
                    }
                }
            }
            Next::Done => {
                return match fault {
                    None => Ok(totals),
                    Some(cause) => Err(RunFault::SinkFailed(cause)),
                };
            }
        }
    }
}
