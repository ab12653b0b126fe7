//! Builds the attributes of a certified host with its certified extensions.

ghost use Rattle.std.specs.Prelude.{◌≡◌, All, IfOk, map};
ghost use Rattle.wb_base.specs.Different.{Differ};
ghost use Rattle.wb_certify.specs.Kept.{ExtensionView};
ghost use Rattle.wb_compose.specs.United.{IsOfUnion};
ghost use Rattle.wb_compose.specs.Composed.{IsWith, name_of};

use crate::cuts::cuts_of;
use crate::rows::{host_rows, lent_of};
use std::alloc::{AllocError, Global};
use wb_certify::{CertifiedExtension, CertifiedHost};
use wb_compose_attributes::united_attribution;
use wb_syntax_resolved::Attribution;

/// The attributes of a host and of extensions, each certified with this host over the same operations.
///
/// In each list the host's rows come first, and then those of each extension. No clause bounds the time.
pub fn composed_attributes(
    alloc: Global,
    host: &CertifiedHost,
    extensions: &[CertifiedExtension],
) -> Result<Attribution, AllocError>
    requires each { All (IsWith host.now) extensions.now }
    requires names { Differ (map name_of extensions.now) }
    ensures { IfOk result (IsOfUnion host.now.resolved host.now.operations (map (λ (e : ExtensionView). e.resolved) extensions.now)) }
{
    // Operations take and give no trees.
    let _operations = host.operations().len();
    let lent = lent_of(host.resolved());
    let additions = cuts_of(alloc, &lent, extensions)?;
    let rows = host_rows(&lent);
    united_attribution(alloc, &rows, &additions)
}
