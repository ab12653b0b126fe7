//! The reader of one token.

ghost use Rattle.std.specs.Prelude.{◌≡◌, ◌≤◌, ◌<◌, length, IfOk};
ghost use Rattle.wb_text_tokens.specs.Inner.Longest.{FindsLongest};
ghost use Rattle.wb_text_tokens.specs.NextToken.{IsNextIn, GoesForward};
ghost use Rattle.wb_text_predictive.specs.declared.table.Next.{Next};
ghost use Rattle.wb_text_tokens.specs.declared.token.Token.{Token};

use crate::integer::integer;
use crate::name::name;
use crate::punctuation::longest_mark;
use crate::regex::regex;
use crate::skipping::skip_layout;
use crate::string::string;
use crate::token_class::{TokenClass, first_class};
use crate::{Dialect, Token};
use std::alloc::{AllocError, Global};
use wb_text_predictive::{Next, Placed};

// The longest token of the dialect that the bytes begin with, and its length.
fn longest_token(
    alloc: Global,
    text: &[u8],
    dialect: Dialect,
) -> Result<Option<(Token, usize)>, AllocError>
    requires { 0 < length text.now }
    ensures { IfOk result (FindsLongest dialect text.now) }
{
    match first_class(text[0]) {
        TokenClass::Letter => name(alloc, text, dialect),
        TokenClass::Number => Ok(integer(text)),
        TokenClass::Quote => string(alloc, text),
        TokenClass::Slash => regex(alloc, text),
        TokenClass::Mark => Ok(longest_mark(text)),
    }
}

/// What is next in a text of the dialect from a place on, after layout: the longest token, the end of the text, or bytes that begin no token.
///
/// Places count bytes from the beginning of the text; to go on, call again from the token's end. An integer goes on as long as digits do,
/// so one that is out of range is no token, and no shorter one is read. Memory is taken only for the bytes of a name, a string or a regular
/// expression. No clause bounds the work: it is linear in the bytes of the layout and the token, and where no token begins at most in those
/// of the line.
pub fn next_token(
    alloc: Global,
    text: &[u8],
    from: usize,
    dialect: Dialect,
) -> Result<Next<Token>, AllocError>
    requires { from ≤ length text.now }
    ensures ok { IfOk result (IsNextIn dialect text.now from) }
    ensures only { IfOk result (λ next.
        (other : Next Token) → IsNextIn dialect text.now from other → other ≡ next) }
    ensures forward { IfOk result (GoesForward text.now from) }
{
    let at = skip_layout(text, from, dialect);
    if at == text.len() {
        return Ok(Next::End { at });
    }
    match longest_token(alloc, &text[at..], dialect)? {
        Some((token, length)) => Ok(Next::Found(Placed {
            token,
            at,
            end: at + length,
        })),
        None => Ok(Next::NoToken { at }),
    }
}
