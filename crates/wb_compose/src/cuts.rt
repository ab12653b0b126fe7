//! What does each extension add to its host?

ghost use Rattle.std.specs.Prelude.{◌≡◌, IfOk};
ghost use Rattle.std.specs.List.{AllZip};
ghost use Rattle.wb_compose.specs.Inner.Cuts.{IsCut};

use crate::rows::{Lent, added_rows, lent_of};
use std::alloc::{AllocError, Global};
use wb_base::push;
use wb_certify::{CertifiedExtension, certified_both};
use wb_compose_attributes::Addition;

// What each adds, in order.
pub(crate) fn cuts_of<'a>(
    alloc: Global,
    host: &Lent,
    extensions: &'a [CertifiedExtension],
) -> Result<Vec<Addition<'a>>, AllocError>
    ensures { IfOk result (λ additions. AllZip (IsCut host.now.attributes.now host.now.grammar.now) extensions.now additions.items) }
{
    let mut additions = Vec::new(alloc);
    'extensions: for extension in extensions {
        push(&mut additions, cut_of(host, extension))?;
    }
    Ok(additions)
}

// What one adds.
fn cut_of<'a>(host: &Lent, extension: &'a CertifiedExtension) -> Addition<'a>
    ensures { IsCut host.now.attributes.now host.now.grammar.now extension.now result }
{
    certified_both(extension);
    let own = lent_of(extension.resolved());
    Addition {
        name: extension.name(),
        rows: added_rows(host, &own),
        written: own.attributes.productions.as_slice(),
    }
}
