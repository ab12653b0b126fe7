//! Which names do reports show for the terminals of a union?

ghost use Rattle.std.specs.Prelude.{◌≡◌, ◌++◌, IfOk, OnOk, map};
ghost use Rattle.wb_reading.specs.OrderedNames.{all_of};
ghost use Rattle.wb_compose_texts.specs.Names.{added_names, name_at, terminals_of};
ghost use Rattle.wb_compose_texts.specs.Unions.{all_resolved};
ghost use Rattle.wb_compose_texts.specs.Inner.Tables.{names_from};

use std::alloc::{AllocError, Global};
use wb_base::{Bytes, Sequence, push};
use wb_certify_shown::{terminal_name, terminals_in};
use wb_compose::{CertifiedExtension, CertifiedHost};
use wb_syntax_resolved::Resolved;

/// The printed names of all terminals of the union, by number: the host's, and then those that each extension adds.
pub fn united_terminals(
    alloc: Global,
    host: &CertifiedHost,
    extensions: &[CertifiedExtension],
) -> Result<Sequence<Bytes>, AllocError>
    ensures { IfOk result (λ names. names ≡ terminals_of host.now.resolved (all_resolved extensions.now)) }
{
    let mut names = Vec::new(alloc);
    let host = host.resolved();
    add_names(alloc, &mut names, host, 0)?;
    add_extensions(alloc, &mut names, host, extensions)?;
    Ok(Sequence::from_vec(names))
}

// Adds those that each extension adds.
fn add_extensions(
    alloc: Global,
    names: &mut Vec<Bytes>,
    host: &Resolved,
    extensions: &[CertifiedExtension],
) -> Result<(), AllocError>
    ensures { OnOk result (names.new.items ≡ names.old.items ++ all_of (map (added_names host.now) (all_resolved extensions.now))) }
{
    let own = terminals_in(&host.parts().grammar);
    'extensions: for extension in extensions {
        add_names(alloc, names, extension.resolved(), own)?;
    }
    Ok(())
}

// Adds the names of the terminals of a grammar from this number on.
fn add_names(
    alloc: Global,
    names: &mut Vec<Bytes>,
    resolved: &Resolved,
    from: usize,
) -> Result<(), AllocError>
    ensures { OnOk result (names.new.items ≡ names.old.items ++ names_from from resolved.now) }
{
    let count = terminals_in(&resolved.parts().grammar);
    'terminals: for terminal in from..count {
        let name = terminal_name(alloc, resolved, terminal)?;
        push(names, name)?;
    }
    Ok(())
}

// The name of a terminal among these names, or of the end of a text.
pub(crate) fn name_of(alloc: Global, names: &[Bytes], terminal: usize) -> Result<Bytes, AllocError>
    ensures { IfOk result (λ name. name ≡ name_at names.now terminal) }
{
    match names.get(terminal) {
        Some(name) => name.copy(),
        None => Bytes::from_slice(alloc, b"end"),
    }
}
