//! Which text of a host with extensions does a number make?

ghost use Rattle.std.specs.Prelude.{◌≡◌, ◌≤◌, IfOk};
ghost use Rattle.wb_compose.specs.Composed.{IsComposed};
ghost use Rattle.wb_compose_texts.specs.Generated.{IsGeneratedText, first_layout, place_behind};
ghost use Rattle.wb_compose_texts.specs.Unions.{all_resolved};

use crate::united_expressions;
use std::alloc::{AllocError, Global};
use wb_certify_shown::terminals_in;
use wb_compose::{CertifiedExtension, CertifiedHost, Composed};
use wb_generate::{Generated, generate};
use wb_syntax_resolved::Resolved;

/// The text of at most so many leaves that the number makes of what is composed of a host and extensions, or that each text has more.
///
/// Between two leaves is the least text of the host's first layout. Whether the text scans to the same leaves isn't promised.
pub fn generated_text(
    alloc: Global,
    host: &CertifiedHost,
    extensions: &[CertifiedExtension],
    composed: &Composed,
    number: u64,
    size: u64,
) -> Result<Generated, AllocError>
    requires composed { IsComposed host.now extensions.now composed.now.language.language composed.now.withdrawn.items }
    requires size { size ≤ 100000 }
    ensures { IfOk result (IsGeneratedText host.now.resolved host.now.operations (all_resolved extensions.now) number size) }
{
    let expressions = united_expressions(alloc, host, extensions)?;
    let grammar = composed.language().grammar();
    let layout = layout_place(host.resolved(), grammar.terminals());
    generate(alloc, grammar, &expressions, layout, number, size)
}

// The place of the host's first layout, where so many terminals come before it.
fn layout_place(host: &Resolved, terminals: usize) -> Option<usize>
    ensures { result ≡ place_behind terminals (first_layout host.now) }
{
    let parts = host.parts();
    if terminals_in(&parts.grammar) < parts.terminals.as_slice().len() {
        Some(terminals)
    } else {
        None
    }
}
