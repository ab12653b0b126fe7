//! Are the attributes of a host with an extension well defined, as an extension's?

ghost use Rattle.std.specs.Prelude.{IfErr, IfOk};
ghost use Rattle.wb_certify_host.specs.Refusals.{start_of};
ghost use Rattle.wb_certify.specs.Tests.{AttributesOk};
ghost use Rattle.wb_certify.specs.Refusals.{IsAttributeRefusal};

use std::alloc::Global;
use wb_certify_host::start;
use wb_complete::{check_complete, check_forward};
use wb_flow::{AttributeRefusal, check_flow};
use wb_syntax_resolved::Resolved;

// Whether attributes are complete and keep to their flow types, and the extension's equations for forwarded trees do.
pub(crate) fn test_attributes(alloc: Global, resolved: &Resolved) -> Result<(), AttributeRefusal>
    ensures ok { IfOk result (λ done. AttributesOk resolved.now.attributes (start_of resolved.now)) }
    ensures refused { IfErr result (IsAttributeRefusal resolved.now.attributes (start_of resolved.now)) }
{
    let parts = resolved.parts();
    check_complete(alloc, &parts.attributes, start(resolved), Some(1))?;
    check_flow(alloc, &parts.attributes)?;
    check_forward(alloc, &parts.attributes, 1)
}
