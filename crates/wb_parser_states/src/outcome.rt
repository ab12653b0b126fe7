//! What can a parser do on the terminal that is ahead?

/// What can be done on the terminal that is ahead, once reductions are made.
#[derive(Clone, Copy)]
pub enum Outcome {
    /// It can be shifted, and then the state is this one.
    Shifts(usize),
    /// The text can be accepted.
    Accepts,
    /// There is no action.
    Stops,
}
