//! Why are edits not all done?

use std::alloc::AllocError;

// Why edits halt: this edit, counted from 1, is out of range or makes the text too long, or memory ran out.
#[derive(Clone, Copy)]
pub(crate) enum Halt {
    OutOfRange(usize),
    TooLong(usize),
    NoMemory(AllocError),
}

impl From<AllocError> for Halt {
    ghost use Rattle.std.specs.Prelude.{◌≡◌};
    ghost use Rattle.wb_compose_texts.specs.declared.halt.Halt.TheVariants.{NoMemory};

    ghost from_gives = { λ error halt. halt ≡ NoMemory error };

    fn from(error: AllocError) -> Self {
        Halt::NoMemory(error)
    }
}
