//! Which name rule fails, and which name shows it?
//!
//! The refusals are those of a host and of an extension alike. Which is true when is in `specs/Refusals`.

use std::alloc::AllocError;
use wb_base::Bytes;

/// Why the names of a specification are refused: the first rule that fails, where rules go N4 of the file's first line, N5, N2, N1, N4, N3.
/// Which of several names that show it is answered is open.
#[derive(Drop)]
pub enum NameRefusal {
    /// N1: nothing of this name is declared where its place asks for it.
    Unknown(Bytes),
    /// N2: this is declared twice.
    Duplicate(Bytes),
    /// N3: an extension says of this name what it may not.
    Orphan(Bytes),
    /// N4: this name is of another kind than its place asks for, or the file of this name isn't a host, or isn't an extension.
    WrongKind(Bytes),
    /// N5: the extension is for this host, which is another.
    WrongHost(Bytes),
    /// Out of memory.
    NoMemory(AllocError),
}

impl From<AllocError> for NameRefusal {
    ghost use Rattle.std.specs.Prelude.{◌≡◌};
    ghost use Rattle.wb_names_theory.specs.declared.refusal.NameRefusal.TheVariants.{NoMemory};

    ghost from_gives = { λ error refusal. refusal ≡ NoMemory error };

    fn from(error: AllocError) -> Self {
        NameRefusal::NoMemory(error)
    }
}

impl NameRefusal {
    /// Lets go of the refusal. A crate that calls this proves no drop of what it holds.
    pub fn release(self) {}
}
