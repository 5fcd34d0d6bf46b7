ghost use Rattle.std.specs.Prelude.{◌≡◌, IfOk};
ghost use Rattle.kt_metadata.specs.Common.{text_in, architecture_reason_text, platform_reason_text, requirement_reason_texts, host_reason_texts, first_reason};

use crate::reasons::{amount_reason, config_reason, need_reason, unsupported_reason, user_reason};
use crate::{Host, Meta, Need};
use kt_base::{NoMemory, Phrase, Reason, Text};
use kt_config::Config;
use std::alloc::Global;

/// Returns the reason to skip a case if `meta` doesn't allow the architecture of `config`.
///
/// `meta` are the properties of the case. Returns `None` if the architecture is allowed.
fn architecture_reason(
    alloc: Global,
    meta: &Meta,
    config: &Config,
) -> Result<Option<Reason>, NoMemory>
    ensures { IfOk result (λ reason. text_in reason
        ≡ architecture_reason_text meta.now config.now) }
{
    let listed = meta.allowed_architectures.as_slice();
    unsupported_reason(
        alloc,
        "Current architecture '",
        listed,
        config.architecture(),
    )
}

/// Returns the reason to skip a case if `meta` doesn't allow the platform of `config`.
///
/// `meta` are the properties of the case. Returns `None` if the platform is allowed.
fn platform_reason(alloc: Global, meta: &Meta, config: &Config) -> Result<Option<Reason>, NoMemory>
    ensures { IfOk result (λ reason. text_in reason ≡ platform_reason_text meta.now config.now) }
{
    let listed = meta.allowed_platforms.as_slice();
    unsupported_reason(alloc, "Current platform '", listed, config.platform())
}

/// Returns the reason to skip a case if `host` doesn't meet one of the case's requirements.
///
/// `meta` are the properties of the case. The reason is that of the first unmet requirement.
/// Returns `None` if the host meets the requirements on user, files, programs, memory and disk.
fn host_reason(alloc: Global, meta: &Meta, host: &Host) -> Result<Option<Reason>, NoMemory>
    ensures { IfOk result (λ reason. text_in reason
        ≡ first_reason (host_reason_texts meta.now host.now)) }
{
    if let Some(reason) = user_reason(meta.required_user, host.root) {
        return Ok(Some(reason));
    }
    if let Some(reason) = need_reason(alloc, Need::File, meta, host)? {
        return Ok(Some(reason));
    }
    if let Some(reason) = need_reason(alloc, Need::Program, meta, host)? {
        return Ok(Some(reason));
    }
    if let Some(reason) = amount_reason(Phrase::MemoryNeeded, meta.required_memory, host.memory) {
        return Ok(Some(reason));
    }
    Ok(amount_reason(Phrase::DiskNeeded, meta.required_disk_space, host.disk))
}

/// Returns the reason to skip a case if one of its requirements isn't met, else `None`.
///
/// `meta` are the properties of the case. The reason is that of the first unmet requirement. The
/// requirements on `config` are checked first: variables of the test suite `suite`, architecture,
/// platform. The requirements on `host` follow: user, files, programs, memory, disk space (this
/// profile).
///
/// # Errors
///
/// - `NoMemory`: an allocation fails.
pub fn unmet(
    alloc: Global,
    meta: &Meta,
    config: &Config,
    suite: &Text,
    host: &Host,
) -> Result<Option<Reason>, NoMemory>
    ensures { IfOk result (λ reason. text_in reason
        ≡ first_reason (requirement_reason_texts meta.now config.now suite.now host.now)) }
{
    if let Some(reason) = config_reason(alloc, meta, config, suite)? {
        return Ok(Some(reason));
    }
    if let Some(reason) = architecture_reason(alloc, meta, config)? {
        return Ok(Some(reason));
    }
    if let Some(reason) = platform_reason(alloc, meta, config)? {
        return Ok(Some(reason));
    }
    host_reason(alloc, meta, host)
}
