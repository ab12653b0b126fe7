//! By which text was a state found? It is read back along its predecessors.

ghost use Rattle.std.specs.Prelude.{◌≡◌, ◌<◌, IfOk, Some, length, slice_get};
ghost use Rattle.wb_automata.specs.Automata.{Path};
ghost use Rattle.wb_automata.specs.Paths.{paths_of};

use crate::predecessor::Predecessor;
use std::alloc::{AllocError, Global};
use wb_base::{Bytes, push};

// The text of a state's path.
pub(crate) fn text_at(
    alloc: Global,
    predecessors: &[Predecessor],
    state: usize,
) -> Result<Bytes, AllocError>
    requires { state < length predecessors.now }
    ensures { IfOk result (λ text. (path : Path) → slice_get (paths_of predecessors.now) state ≡ Some path → text ≡ path.text) }
{
    let mut bytes = Vec::new(alloc);
    let mut at = state;
    'back: while predecessors[at].from < at {
        push(&mut bytes, predecessors[at].byte)?;
        at = predecessors[at].from;
    }
    bytes.reverse();
    Bytes::from_vec(bytes)
}
