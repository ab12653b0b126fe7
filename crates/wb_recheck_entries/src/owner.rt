//! Whose certificate is it?

ghost use Rattle.std.specs.Prelude.{◌≡◌, ◌↔◌, IsTrue};
ghost use Rattle.wb_recheck_entries.specs.Texts.{IsExtensionHead, IsHeadOf, IsHostHead};

use wb_base::Bytes;
use wb_recheck_text::Head;

/// Of what a certificate has to be.
#[derive(Clone, Copy)]
pub enum Owner<'a> {
    /// A host of this name.
    Host(&'a [u8]),
    /// An extension of the first name for a host of the second.
    Extension(&'a [u8], &'a [u8]),
}

// Whether the head of a certificate names the owner.
pub(crate) fn is_head_of(owner: &Owner, head: &Head) -> bool
    ensures { IsTrue result ↔ IsHeadOf owner.now head.now }
{
    match *owner {
        Owner::Host(name) => is_host(name, head),
        Owner::Extension(name, host) => is_extension(name, host, head),
    }
}

// Whether it is that of a host of a name.
fn is_host(name: &[u8], head: &Head) -> bool
    ensures { IsTrue result ↔ IsHostHead name.now head.now }
{
    match head {
        Head::Host(found) => is_name(name, found),
        Head::Extension(_, _) => false,
    }
}

// Whether it is that of an extension of a name for a host.
fn is_extension(name: &[u8], host: &[u8], head: &Head) -> bool
    ensures { IsTrue result ↔ IsExtensionHead name.now host.now head.now }
{
    match head {
        Head::Host(_) => false,
        Head::Extension(found, base) => is_name(name, found) && is_name(host, base),
    }
}

// Whether a name is this one.
fn is_name(name: &[u8], found: &Bytes) -> bool
    ensures { IsTrue result ↔ (name.now ≡ found.now) }
{
    name == found.as_slice()
}
