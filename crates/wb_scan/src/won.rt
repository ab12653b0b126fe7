//! What wins at a state, as a scan answers it: no form, layout, or the token of a form.

ghost use Rattle.std.specs.Prelude.{◌<◌, All, length};
ghost use Rattle.wb_scan_theory.specs.Languages.{forms_of};
ghost use Rattle.wb_scan.specs.Landings.{IsOfForm, IsWon};
ghost use Rattle.wb_scan.specs.Inner.Rankings.{ranked_by};

use crate::winner::{Ranking, winner};

// What wins at a state.
#[derive(Clone, Copy)]
pub(crate) enum Won {
    // No form does.
    Nothing,
    // Layout.
    Layout,
    // A form of this terminal, with a prefix of so many bytes.
    Token { terminal: usize, prefix: usize },
}

// What wins of these places of forms.
#[inline(never)]
pub(crate) fn won_of(ranking: &Ranking, places: &[usize]) -> Won
    requires { All (λ p. p < length (forms_of (ranked_by ranking.now))) places.now }
    ensures { IsWon (ranked_by ranking.now) places.now result }
{
    match winner(ranking, places) {
        Some(place) => won_by(ranking, place),
        None => Won::Nothing,
    }
}

// What wins where the form at this place does.
fn won_by(ranking: &Ranking, place: usize) -> Won
    ensures { IsOfForm ranking.now.forms.now place result }
{
    if place >= ranking.forms.len() {
        return Won::Layout;
    }
    let form = &ranking.forms[place];
    Won::Token {
        terminal: form.terminal,
        prefix: form.prefix.as_slice().len(),
    }
}
