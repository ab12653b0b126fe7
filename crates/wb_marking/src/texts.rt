//! Are two expressions one text each, and not the same?
//!
//! Then they share no text, so keywords are told apart without their places.

ghost use Rattle.std.specs.Prelude.{◌≢◌, IsSomeAnd, IsTrue};

use wb_base::Sequence;

// Whether both are one text, and not the same.
pub(crate) fn differ(one: &Option<Sequence<u8>>, other: &Option<Sequence<u8>>) -> bool
    ensures { IsTrue result → IsSomeAnd one.now (λ text. IsSomeAnd other.now (λ found. text ≢ found)) }
{
    match one {
        Some(text) => differs_from(text.as_slice(), other),
        None => false,
    }
}

// Whether the other is one text, and not this one.
fn differs_from(text: &[u8], other: &Option<Sequence<u8>>) -> bool
    ensures { IsTrue result → IsSomeAnd other.now (λ found. text.now ≢ found) }
{
    match other {
        Some(found) => text != found.as_slice(),
        None => false,
    }
}
