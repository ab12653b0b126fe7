//! Why do the kind rules fail?
//!
//! Which expressions they are about, and what each asks, is said in `specs/`.

use std::alloc::AllocError;
use wb_base::Bytes;

/// Which kind rule fails first, in the order of this list. Which of several expressions is shown is left open.
#[derive(Drop)]
pub enum TypeRefusal {
    /// N1: an expression calls an operation of this name, and there is none.
    UnknownOperation(Bytes),
    /// Y2: in the expression of an equation a production or operation has another number of arguments than it takes. The position is that
    /// of the equation's first token, in bytes from the beginning of its owner's file; that of `forwards to` is in the file of the
    /// production's owner.
    WrongArity(usize),
    /// Y1: an equation's expression isn't of the kind that its place asks for. The position is as for Y2.
    TypeMismatch(usize),
    /// Out of memory.
    NoMemory(AllocError),
}

impl From<AllocError> for TypeRefusal {
    ghost use Rattle.std.specs.Prelude.{◌≡◌};
    ghost use Rattle.wb_types.specs.declared.refusal.TypeRefusal.TheVariants.{NoMemory};

    ghost from_gives = { λ error refusal. refusal ≡ NoMemory error };

    fn from(error: AllocError) -> Self {
        TypeRefusal::NoMemory(error)
    }
}

impl TypeRefusal {
    /// Lets go of the refusal. A crate that calls this proves no drop of what it holds.
    pub fn release(self) {}
}
