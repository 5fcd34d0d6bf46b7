ghost use Rattle.std.specs.Prelude.{◌≡◌};
ghost use Rattle.kt_sched.specs.Common.{unstarted_record, empty_output};

use crate::stage::CaseRecord;
use kt_base::{Bytes, Output, Verdict};
use std::alloc::Global;

/// Returns the empty output of a child that did not run. The call doesn't allocate.
pub fn empty_output(alloc: Global) -> Output
    ensures { result ≡ empty_output }
{
    Output {
        out: Bytes::new(alloc),
        err: Bytes::new(alloc),
    }
}

/// Creates the `CaseRecord` of a case that was not started and has the verdict `verdict`.
///
/// The verdict was decided before the run, or the start of the body was refused.
pub fn unstarted_record(alloc: Global, verdict: Verdict) -> CaseRecord
    ensures { result ≡ unstarted_record verdict }
{
    CaseRecord {
        verdict,
        started: 0,
        millis: 0,
        body: empty_output(alloc),
        cleanup: empty_output(alloc),
    }
}
