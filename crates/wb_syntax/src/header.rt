//! Is a specification a host, or an extension, and of which host?
//!
//! Its own name is kept beside this, since both have one.

use std::alloc::AllocError;
use wb_base::Bytes;

/// What a specification is.
#[derive(Drop)]
pub enum Header {
    /// A host.
    Host,
    /// An extension.
    Extension {
        /// The name of the host that it is for.
        host: Bytes,
    },
}

impl Clone for Header {
    ghost use Rattle.std.specs.Prelude.{◌≡◌};

    ghost is_clone = { λ header copy. copy ≡ header };

    fn clone(&self) -> Result<Header, AllocError> {
        match self {
            Header::Host => Ok(Header::Host),
            Header::Extension { host } => Ok(Header::Extension { host: host.copy()? }),
        }
    }
}
