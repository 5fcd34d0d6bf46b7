ghost use Rattle.std.specs.Prelude.{◌≡◌, ◌-◌, ◌^◌};
ghost use Rattle.kt_sched.specs.Common.{CanCount, counted};

use crate::Totals;
use kt_base::Kind;

/// Returns `totals` with one more entry, whose verdict is of the kind `kind`.
pub fn count_entry(totals: Totals, kind: Kind) -> Totals
    requires { CanCount totals (2 ^ 64 - 1) }
    ensures { result ≡ counted totals kind }
{
    if kind.good() {
        Totals {
            total: totals.total + 1,
            good: totals.good + 1,
            bad: totals.bad,
        }
    } else {
        Totals {
            total: totals.total + 1,
            good: totals.good,
            bad: totals.bad + 1,
        }
    }
}
