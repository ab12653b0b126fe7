//! What is on the parser's stack? A state and a value for each root, in two lists.

ghost use Rattle.std.specs.Prelude.{◌≡◌, []};

use std::alloc::Global;
use wb_values::PackedValues;

// The states and the values of the roots, the last one on top. At the bottom is state 0, which isn't listed.
#[derive(Drop)]
pub(crate) struct Stack {
    pub(crate) states: Vec<usize>,
    pub(crate) values: PackedValues,
}

impl Stack {
    // No roots.
    pub(crate) fn new(alloc: Global) -> Stack
        ensures states { result.states.items ≡ [] }
        ensures values { result.values ≡ [] }
    {
        Stack {
            states: Vec::new(alloc),
            values: PackedValues::new(alloc),
        }
    }
}
