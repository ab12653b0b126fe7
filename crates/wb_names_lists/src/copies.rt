//! Copies two names for a value that names two things.
//!
//! Both copies come before the value is built, so that nothing is left to fail there.

ghost use Rattle.std.specs.Prelude.{◌≡◌, IfOk};

use std::alloc::AllocError;
use wb_base::Bytes;

// Copies of two names.
pub(crate) fn copies(first: &Bytes, second: &Bytes) -> Result<(Bytes, Bytes), AllocError>
    ensures { IfOk result (λ made. made ≡ (first.now, second.now)) }
{
    let first = first.copy()?;
    match second.copy() {
        Ok(second) => Ok((first, second)),
        Err(error) => {
            drop(first);
            Err(error)
        }
    }
}
