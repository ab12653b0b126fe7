//! Does a text begin with these bytes?

ghost use Rattle.std.specs.Prelude.{◌≡◌, ◌≢◌, ◌≤◌, ◌++◌, ◌∷◌, [], ℕ, List, IfOk, IfErr, MatchBool, MatchOption, length, drop};
ghost use Rattle.wb_text_parts.specs.Parts.{Exactly, IsStop};
ghost use Rattle.wb_text_parts.specs.Inner.Lengths.{AreSameUpTo};

/// What is after these bytes; or, where the text doesn't begin with them, the text from the first other byte on.
#[tactic(auto, using(crate::proofs::WordLemmas::word_stopped_at))]
pub fn word<'t>(text: &'t [u8], bytes: &[u8]) -> Result<&'t [u8], &'t [u8]>
    ensures read { IfOk result (λ after. text.now ≡ bytes.now ++ after.now) }
    ensures stopped { IfErr result (λ rest. IsStop (Exactly bytes.now) text.now rest.now) }
{
    let at = same_length(text, bytes);
    let after = rest(text, at);
    if at < bytes.len() {
        return Err(after);
    }
    Ok(after)
}

// How far the two are the same.
fn same_length(text: &[u8], bytes: &[u8]) -> usize
    ensures { AreSameUpTo text.now bytes.now result }
{
    let mut at = 0;
    while at < bytes.len() && at < text.len() {
        if text[at] != bytes[at] {
            return at;
        }
        at += 1;
    }
    at
}

/// What is after so many bytes.
pub fn rest(text: &[u8], at: usize) -> &[u8]
    requires { at ≤ length text.now }
    ensures { result.now ≡ drop at text.now }
{
    &text[at..]
}

/// Whether the text begins with this byte.
pub fn begins(text: &[u8], byte: u8) -> bool
    ensures { MatchBool result (text.now ≡ byte ∷ drop 1 text.now) ((after : List ℕ) → text.now ≢ byte ∷ after) }
{
    if text.is_empty() {
        return false;
    }
    text[0] == byte
}

/// The first byte and what is after it.
pub fn first(text: &[u8]) -> Option<(u8, &[u8])>
    ensures { MatchOption result (text.now ≡ []) (λ found. text.now ≡ found.0 ∷ found.1.now) }
{
    match text {
        [] => None,
        [byte, after @ ..] => Some((*byte, after)),
    }
}
