//! Where can the parser go on after an edit? Before each token whose place and stack are kept, up to which nothing that was edited was
//! looked at.

ghost use Rattle.std.specs.Prelude.{◌≡◌, ◌<◌, ◌≤◌, Some, length, slice_get};
ghost use Rattle.wb_session.specs.Kept.{BeginsAtStart};

// The stack before a token is kept: the token is looked for from a place on; up to there, nothing from `reach` on was looked at; and the
// stack has this link.
#[derive(Clone, Copy)]
pub(crate) struct Checkpoint {
    pub(crate) at: usize,
    pub(crate) reach: usize,
    pub(crate) link: usize,
}

// The place of the last checkpoint up to which nothing from a place of the text on was looked at. Reaches rise, so it is found by binary
// search.
pub(crate) fn last_before(checkpoints: &[Checkpoint], from: usize) -> usize
    requires { BeginsAtStart checkpoints.now }
    ensures within { result < length checkpoints.now }
    ensures before { (point : Checkpoint) → slice_get checkpoints.now result ≡ Some point → point.reach ≤ from }
{
    let mut low = 0;
    let mut high = checkpoints.len();
    'halves: while low + 1 < high {
        let middle = low + (high - low) / 2;
        if checkpoints[middle].reach <= from {
            low = middle;
        } else {
            high = middle;
        }
    }
    low
}
