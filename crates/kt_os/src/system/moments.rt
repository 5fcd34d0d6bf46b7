ghost use Rattle.std.specs.Prelude.{◌≡◌, ◌≤◌, ℕ, Result};
ghost use Rattle.kt_os.specs.Common.{OsFault, Now, moment_of};

use crate::Os;
use kt_base::LATEST_MOMENT_MILLIS;

/// Returns the system's time, in milliseconds since 1970 in UTC. Returns 0 if the clock fails or
/// the time is later than `LATEST_MOMENT_MILLIS`.
pub fn moment<O: Os>(os: &mut O) -> u64
    ensures asked { (answer : Result ℕ OsFault) × O.leads os.old (Now answer) os.new
        × (result ≡ moment_of answer) }
    ensures range { result ≤ LATEST_MOMENT_MILLIS }
{
    match os.now() {
        Ok(moment) if moment <= LATEST_MOMENT_MILLIS => moment,
        Ok(_) | Err(_) => 0,
    }
}
