//! What is made of the grammar of a certified extension with its host?
//!
//! The host is deterministic, and the extension beside it, so no refusal but out of memory comes.

ghost use Rattle.std.specs.Prelude.{IfOk, IfSome};
ghost use Rattle.wb_determinism_host.specs.Hosts.{AreHostParts};
ghost use Rattle.wb_certify_parts.specs.Kept.{AreKeptParts, ArePartsBeside};

use std::alloc::{AllocError, Global};
use wb_certify::{CertifiedExtension, certified_both};
use wb_determinism::{ExtensionParts, extension_determinism, extension_refusals_law};
use wb_determinism_host::{DeterminismRefusal, HostParts, host_determinism, host_refusals_law};

/// What is made of the grammar of a certified extension with its host, with holes: its kernels, their lookaheads, and the region of each
/// kernel.
///
/// It is made anew, as is what the extension is compared with: that of the host alone. The only error is out of memory. No clause bounds
/// the time.
pub fn extension_parts(
    alloc: Global,
    extension: &CertifiedExtension,
) -> Result<ExtensionParts, AllocError>
    ensures { IfOk result (AreKeptParts extension.now.host extension.now.resolved) }
{
    let host = host_parts(alloc, extension)?;
    let made = parts_beside(alloc, extension, &host);
    host.release();
    made
}

// What is made of the grammar of the host.
fn host_parts(alloc: Global, extension: &CertifiedExtension) -> Result<HostParts, AllocError>
    ensures { IfOk result (λ parts. IfSome extension.now.host.grammar (λ g. AreHostParts extension.now.host g parts)) }
{
    let host = extension.host();
    host_refusals_law();
    match host_determinism(alloc, host) {
        Ok(parts) => Ok(parts),
        Err(DeterminismRefusal::NoMemory(..)) => Err(AllocError),
        Err(_refusal) => unreachable!(),
    }
}

// What is made of the grammar of both, beside these parts of the host.
fn parts_beside(
    alloc: Global,
    extension: &CertifiedExtension,
    host: &HostParts,
) -> Result<ExtensionParts, AllocError>
    requires { IfSome extension.now.host.grammar (λ g. AreHostParts extension.now.host g host.now) }
    ensures { IfOk result (ArePartsBeside extension.now.resolved host.now) }
{
    let both = extension.resolved();
    certified_both(extension);
    extension_refusals_law();
    match extension_determinism(alloc, host, both) {
        Ok(parts) => Ok(parts),
        Err(DeterminismRefusal::NoMemory(..)) => Err(AllocError),
        Err(_refusal) => unreachable!(),
    }
}
