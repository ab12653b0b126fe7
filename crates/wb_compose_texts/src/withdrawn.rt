//! Which names do reports show for markers without a bare form?

ghost use Rattle.std.specs.Prelude.{◌≡◌, IfOk, map};
ghost use Rattle.wb_compose.specs.Composed.{IsComposed};
ghost use Rattle.wb_compose_texts.specs.Names.{name_at};
ghost use Rattle.wb_compose_texts.specs.Unions.{all_resolved};
ghost use Rattle.wb_compose_texts.specs.Withdrawn.{AreWithdrawnNames};

use crate::names::{name_of, united_terminals};
use std::alloc::{AllocError, Global};
use wb_base::{Bytes, Sequence, push};
use wb_compose::{CertifiedExtension, CertifiedHost, Composed};

/// The printed names of the markers without a bare form in what is composed of a host and extensions, by extension and then by number.
pub fn withdrawn_names(
    alloc: Global,
    host: &CertifiedHost,
    extensions: &[CertifiedExtension],
    composed: &Composed,
) -> Result<Sequence<Bytes>, AllocError>
    requires { IsComposed host.now extensions.now composed.now.language.language composed.now.withdrawn.items }
    ensures { IfOk result (AreWithdrawnNames host.now.resolved host.now.operations (all_resolved extensions.now)) }
{
    let names = united_terminals(alloc, host, extensions)?;
    names_of(alloc, names.as_slice(), composed.withdrawn())
}

// The names of terminals, where these are all names.
fn names_of(
    alloc: Global,
    names: &[Bytes],
    numbers: &[usize],
) -> Result<Sequence<Bytes>, AllocError>
    ensures { IfOk result (λ made. made ≡ map (name_at names.now) numbers.now) }
{
    let mut made = Vec::new(alloc);
    'numbers: for &number in numbers {
        let name = name_of(alloc, names, number)?;
        push(&mut made, name)?;
    }
    Ok(Sequence::from_vec(made))
}
