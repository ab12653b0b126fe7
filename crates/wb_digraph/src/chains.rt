//! Which entries have a key? They are in a chain for each key, from its last entry to its first.

ghost use Rattle.std.specs.Prelude.{◌≡◌, ◌<◌, ◌+◌, ◌++◌, ◌∷◌, [], IfOk, OnOk, length, replicate, slice_index, slice_set};

use std::alloc::{AllocError, Global};
use wb_base::push;

// For each key one more than the number of its last entry, or 0; and for each entry the same of the entries before it.
#[derive(Drop)]
pub(crate) struct Chains {
    pub(crate) lasts: Vec<usize>,
    pub(crate) earlier: Vec<usize>,
}

impl Chains {
    // No entries, with so many keys.
    pub(crate) fn new(alloc: Global, count: usize) -> Result<Chains, AllocError>
        ensures lasts { IfOk result (λ chains. chains.lasts.items ≡ replicate count 0) }
        ensures earlier { IfOk result (λ chains. chains.earlier.items ≡ []) }
    {
        let lasts = vec![in alloc; 0; count]?;
        Ok(Chains {
            lasts,
            earlier: Vec::new(alloc),
        })
    }

    // Puts an entry with the key after the others.
    pub(crate) fn push(&mut self, key: usize) -> Result<(), AllocError>
        requires { key < length self.old.lasts.items }
        ensures lasts { OnOk result (self.new.lasts.items ≡ slice_set self.old.lasts.items key (length self.old.earlier.items + 1)) }
        ensures earlier { OnOk result (self.new.earlier.items ≡ self.old.earlier.items ++ slice_index self.old.lasts.items key ∷ []) }
    {
        push(&mut self.earlier, self.lasts[key])?;
        self.lasts[key] = self.earlier.len();
        Ok(())
    }
}
