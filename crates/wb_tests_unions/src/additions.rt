//! Builds the grammar of the union of a host and its extensions.

ghost use Rattle.std.specs.Prelude.{All, IfOk};
ghost use Rattle.std.specs.List.{AllZip};
ghost use Rattle.wb_compose_theory_grammar.specs.Pieces.{Extends};
ghost use Rattle.wb_tests_unions.specs.Inner.Lent.{IsAdded, IsUnion, grammar_of};

use crate::found::Own;
use std::alloc::{AllocError, Global};
use wb_base::{Grammar, push};
use wb_certify::{CertifiedExtension, certified_both};
use wb_compose_language::{Addition, united_grammar};

// The grammar.
pub(crate) fn union_of(
    alloc: Global,
    own: &Own,
    extensions: &[CertifiedExtension],
) -> Result<Grammar, AllocError>
    requires { All (λ e. Extends own.now.grammar.now (grammar_of e)) extensions.now }
    ensures { IfOk result (IsUnion own.now extensions.now) }
{
    let additions = additions_of(alloc, extensions)?;
    let union = united_grammar(alloc, own.grammar, &additions);
    drop(additions);
    union
}

// What each extension adds, in order.
fn additions_of<'a>(
    alloc: Global,
    extensions: &'a [CertifiedExtension],
) -> Result<Vec<Addition<'a>>, AllocError>
    ensures { IfOk result (λ additions. AllZip IsAdded extensions.now additions.items) }
{
    let mut additions = Vec::new(alloc);
    'extensions: for extension in extensions {
        let addition = addition_of(extension);
        push(&mut additions, addition)?;
    }
    Ok(additions)
}

// What one adds.
fn addition_of<'a>(extension: &'a CertifiedExtension) -> Addition<'a>
    ensures { IsAdded extension.now result }
{
    certified_both(extension);
    let parts = extension.resolved().parts();
    match &parts.grammar {
        Some(grammar) => Addition {
            grammar,
            terminals: parts.terminals.as_slice(),
            preferences: parts.preferences.as_slice(),
            name: extension.name(),
        },
        None => unreachable!(),
    }
}
