//! From where was a state found?

// The set from whose start a state was found, and the state and the byte that lead there: at the start no lesser state.
#[derive(Clone, Copy)]
pub(crate) struct Predecessor {
    pub(crate) set: usize,
    pub(crate) from: usize,
    pub(crate) byte: u8,
}
