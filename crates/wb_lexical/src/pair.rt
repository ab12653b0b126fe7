//! Finds two terminals that match a text and that no preference orders.

ghost use Rattle.std.specs.Prelude.{◌≡◌, ◌<◌, ◌↔◌, ℕ, Contains, IfSome, IsNone, IsTrue};
ghost use Rattle.wb_lexical.specs.Clash.{AreOrdered};
ghost use Rattle.wb_lexical.specs.Inner.Undecided.{IsUndecided};

/// Whether the first terminal is preferred to the second.
pub fn prefers(preferences: &[(usize, usize)], winner: usize, loser: usize) -> bool
    ensures { IsTrue result ↔ Contains preferences.now (winner, loser) }
{
    preferences.contains(&(winner, loser))
}

// Two terminals; the first has the lesser number.
#[derive(Clone, Copy)]
pub(crate) struct Pair {
    pub(crate) left: usize,
    pub(crate) right: usize,
}

// Two of these terminals with no preference between them.
pub(crate) fn undecided_pair(accepted: &[usize], preferences: &[(usize, usize)]) -> Option<Pair>
    ensures some { IfSome result (λ pair. IsUndecided accepted.now preferences.now pair.left pair.right) }
    ensures none { IsNone result → (left right : ℕ) → ¬ IsUndecided accepted.now preferences.now left right }
{
    for left in accepted {
        if let Some(pair) = undecided_with(accepted, preferences, *left) {
            return Some(pair);
        }
    }
    None
}

// Like `undecided_pair`, with this terminal as the first.
fn undecided_with(accepted: &[usize], preferences: &[(usize, usize)], left: usize) -> Option<Pair>
    requires { Contains accepted.now left }
    ensures some { IfSome result (λ pair. IsUndecided accepted.now preferences.now pair.left pair.right) }
    ensures none { IsNone result → (right : ℕ) → ¬ IsUndecided accepted.now preferences.now left right }
{
    for right in accepted {
        if is_undecided(preferences, left, *right) {
            return Some(Pair {
                left,
                right: *right,
            });
        }
    }
    None
}

// Whether the first terminal is less than the second, and no preference orders them.
fn is_undecided(preferences: &[(usize, usize)], left: usize, right: usize) -> bool
    ensures { IsTrue result ↔ ((left < right) × (¬ AreOrdered preferences.now left right)) }
{
    if right <= left || prefers(preferences, left, right) {
        return false;
    }
    !prefers(preferences, right, left)
}
