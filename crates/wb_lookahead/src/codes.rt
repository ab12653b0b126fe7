//! How is an action or a kernel kept in 32 bits? By codes, whose meaning is a definition.

ghost use Rattle.std.specs.Prelude.{◌≡◌, ◌<◌, ◌/◌, ◌%◌, IfOk, Some};
ghost use Rattle.wb_lookahead.specs.Codes.{action_at, goto_at};

use crate::action::Action;
use std::alloc::AllocError;

// Numbers from here on have no code, which is reported as out of memory.
const LIMIT: usize = 1 << 30;

// The code of an action.
pub(crate) fn code_of(action: Action) -> Result<u32, AllocError>
    ensures { IfOk result (λ code. action_at code ≡ action) }
{
    match action {
        Action::Shift(state) => code(state, 1),
        Action::Reduce(production) => code(production, 2),
        Action::Accept => Ok(3),
        Action::None => Ok(0),
    }
}

// The code of a kind with a number.
fn code(number: usize, kind: u32) -> Result<u32, AllocError>
    requires { kind < 4 }
    ensures number { IfOk result (λ code. code / 4 ≡ number) }
    ensures kind { IfOk result (λ code. code % 4 ≡ kind) }
{
    if number >= LIMIT {
        return Err(AllocError);
    }
    Ok(number as u32 * 4 + kind)
}

// The action of a code.
pub(crate) fn action_from(code: u32) -> Action
    ensures { result ≡ action_at code }
{
    let number = (code / 4) as usize;
    match code % 4 {
        0 => Action::None,
        1 => Action::Shift(number),
        2 => Action::Reduce(number),
        _ => Action::Accept,
    }
}

// The code of a kernel after a nonterminal. The code of none is 0.
pub(crate) fn goto_code(state: usize) -> Result<u32, AllocError>
    ensures { IfOk result (λ code. goto_at code ≡ Some state) }
{
    if state >= LIMIT {
        return Err(AllocError);
    }
    Ok(state as u32 + 1)
}

// The kernel of a code, where there is one.
pub(crate) fn goto_from(code: u32) -> Option<usize>
    ensures { result ≡ goto_at code }
{
    if code == 0 {
        return None;
    }
    Some((code - 1) as usize)
}
