//! Are the attributes of a resolved host well defined? Kinds first, then attributes; nothing is asked of its grammar.

ghost use Rattle.std.specs.Prelude.{◌≡◌, [], IfErr, IfOk};
ghost use Rattle.wb_certify_host.specs.WellDefined.{HasWellDefinedAttributes, IsWellDefinedRefusal};

use crate::CertifyRefusal;
use crate::value::{check_attributes, check_kinds};
use std::alloc::Global;
use wb_operations::{Meaning, OperationTable};
use wb_syntax_resolved::Resolved;

/// Whether the attributes of a resolved host are well defined over a table of operations, or the first rule that fails.
///
/// It has no extension, and may have no start. Rules go by rule, each on the whole host: kinds, then attributes. No clause bounds the time.
pub fn check_well_defined<M: Meaning>(
    alloc: Global,
    resolved: &Resolved,
    operations: &OperationTable<M>,
) -> Result<(), CertifyRefusal>
    requires { resolved.now.attributes.extensions ≡ [] }
    ensures ok { IfOk result (λ done. HasWellDefinedAttributes resolved.now operations.now.signatures) }
    ensures refused { IfErr result (IsWellDefinedRefusal resolved.now operations.now.signatures) }
{
    check_kinds(alloc, resolved, operations)?;
    check_attributes(alloc, resolved)
}
