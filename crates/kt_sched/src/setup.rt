ghost use Rattle.std.specs.Prelude.{OnOk, ◌++◌, ◌≡◌, map, IfOk};
ghost use Rattle.kt_sched.specs.Common.{turns, initial_case, positions_where, positions};

use crate::Job;
use crate::stage::{Case, Stage};
use kt_base::NoMemory;
use std::alloc::Global;

/// Creates the case of `job` in its first stage: `Decided` if the job has a verdict already, else
/// `Waiting`.
fn initial_case(job: Job) -> Case
    ensures { result ≡ initial_case job }
{
    let stage = match &job.decided {
        None => Stage::Waiting,
        Some(_) => Stage::Decided,
    };
    Case { job, stage }
}

/// Creates the cases of the jobs `plan`, each in its first stage.
///
/// # Errors
///
/// - `NoMemory`: an allocation fails.
pub fn create_cases(alloc: Global, plan: Vec<Job>) -> Result<Vec<Case>, NoMemory>
    ensures { IfOk result (λ cases. cases.items ≡ map initial_case plan.items) }
{
    let cases = plan
        .into_iter()
        .map(|job| initial_case(job))
        .collect(alloc)?;
    Ok(cases)
}

/// Returns the positions of the cases of `plan` in turn order: the cases that are not exclusive,
/// then the exclusive cases.
///
/// # Errors
///
/// - `NoMemory`: an allocation fails.
pub fn turn_order(alloc: Global, plan: &[Job]) -> Result<Vec<u32>, NoMemory>
    ensures { IfOk result (λ order. order.items ≡ positions (turns plan.now)) }
{
    let mut order: Vec<u32> = Vec::new(alloc);
    push_positions(plan, false, &mut order)?;
    push_positions(plan, true, &mut order)?;
    Ok(order)
}

/// Appends the positions of the exclusive jobs of `plan` to `order` if `exclusive` is `true`, else
/// the positions of the other jobs.
fn push_positions(plan: &[Job], exclusive: bool, order: &mut Vec<u32>) -> Result<(), NoMemory>
    ensures { OnOk result (order.new.items ≡ order.old.items
        ++ positions_where exclusive plan.now) }
{
    for job in plan {
        if job.exclusive == exclusive {
            order.push(job.position)?;
        }
    }
    Ok(())
}
