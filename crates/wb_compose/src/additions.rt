//! What do extensions lend to the union?

ghost use Rattle.std.specs.Prelude.{◌≡◌, IfOk};
ghost use Rattle.std.specs.List.{AllZip};
ghost use Rattle.wb_compose.specs.Inner.Lending.{IsLent};

use std::alloc::{AllocError, Global};
use wb_base::push;
use wb_certify::{CertifiedExtension, certified_both};
use wb_compose_language::Addition;

// What is lent of each extension, in order.
pub(crate) fn additions_of<'a>(
    alloc: Global,
    extensions: &'a [CertifiedExtension],
) -> Result<Vec<Addition<'a>>, AllocError>
    ensures { IfOk result (λ additions. AllZip IsLent extensions.now additions.items) }
{
    let mut additions = Vec::new(alloc);
    'extensions: for extension in extensions {
        push(&mut additions, addition_of(extension))?;
    }
    Ok(additions)
}

// What is lent of one.
fn addition_of<'a>(extension: &'a CertifiedExtension) -> Addition<'a>
    ensures { IsLent extension.now result }
{
    certified_both(extension);
    let parts = extension.resolved().parts();
    match &parts.grammar {
        Some(grammar) => Addition {
            grammar,
            terminals: parts.terminals.as_slice(),
            preferences: parts.preferences.as_slice(),
            name: extension.name(),
        },
        None => unreachable!(),
    }
}
