//! Which state is on top, and how is one put there? At the bottom is state 0, which isn't listed.

ghost use Rattle.std.specs.Prelude.{◌≡◌, ◌<◌, ◌+◌, ◌++◌, ◌∷◌, [], length, take};
ghost use Rattle.wb_parser_states.specs.Stacks.{last_or};

/// The last of the states, or 0.
#[inline]
pub fn top(states: &[usize]) -> usize
    ensures { result ≡ last_or 0 states.now }
{
    if states.len() == 0 {
        return 0;
    }
    states[states.len() - 1]
}

/// Puts a state after the first ones, so many, in the place of the one there.
#[inline(always)]
pub fn put_at(states: &mut [usize], kept: usize, state: usize)
    requires { kept < length states.old }
    ensures states { take (kept + 1) states.new ≡ take kept states.old ++ state ∷ [] }
    ensures length { length states.new ≡ length states.old }
{
    states[kept] = state;
}
