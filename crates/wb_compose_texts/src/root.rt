//! Which attribute may be asked at the start of a host with extensions?

ghost use Rattle.std.specs.Prelude.{◌≡◌, List, Some, IfOk, MatchOption};
ghost use Rattle.wb_base.specs.Grammar.{GrammarView};
ghost use Rattle.wb_compose.specs.United.{IsOfUnion};
ghost use Rattle.wb_syntax_resolved.specs.declared.resolved.ResolvedParts.{ResolvedParts};
ghost use Rattle.wb_compose_texts.specs.Roots.{HasNoRootAttribute, IsRootAttribute};

use std::alloc::{AllocError, Global};
use wb_compose::CertifiedHost;
use wb_eval_root::asked_on;
use wb_syntax_resolved::Attribution;

/// The attribute that may be asked by a printed name at the start, among the attributes of a host with extensions.
pub fn root_attribute(
    alloc: Global,
    host: &CertifiedHost,
    attributes: &Attribution,
    name: &[u8],
) -> Result<Option<usize>, AllocError>
    ensures { (extensions : List ResolvedParts) → IsOfUnion host.now.resolved host.now.operations extensions attributes.now → IfOk result (λ found. MatchOption found
        (HasNoRootAttribute host.now.resolved host.now.operations extensions name.now)
        (IsRootAttribute host.now.resolved host.now.operations extensions name.now)) }
{
    let start = start_of(host);
    asked_on(alloc, attributes, start, name)
}

// The start of a host.
fn start_of(host: &CertifiedHost) -> usize
    ensures { (g : GrammarView) → host.now.resolved.grammar ≡ Some g → result ≡ g.start }
{
    match &host.resolved().parts().grammar {
        Some(grammar) => grammar.start(),
        None => unreachable!(),
    }
}
