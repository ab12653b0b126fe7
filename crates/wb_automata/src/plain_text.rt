//! Is an expression one text alone, as a keyword is?
//!
//! A keyword is; it is found by the nodes alone, without places.

ghost use Rattle.std.specs.Prelude.{◌≡◌, ◌≤◌, ◌<◌, ℕ, IfNone, IfOk, IfSome, true};
ghost use Rattle.wb_automata.specs.Sharing.{IsOnlyMatch};
ghost use Rattle.wb_automata.specs.Inner.PlainTexts.{Adds, AddsSingle, IsSingle};
ghost use Rattle.wb_regex.specs.Matches.{HoldsByte};

use crate::bytes::has_byte;
use std::alloc::{AllocError, Global};
use wb_base::{Sequence, push};
use wb_regex::{Regex, RegexNode};

/// The one text that an expression matches, where it is a row of single bytes; another one may have none.
///
/// Two such expressions share a text only where it is one text, so they can be told apart by sorting their texts.
pub fn only_text(alloc: Global, regex: &Regex) -> Result<Option<Sequence<u8>>, AllocError>
    ensures { IfOk result (λ found. IfSome found (IsOnlyMatch regex.now)) }
{
    let mut text = Vec::new(alloc);
    'nodes: for node in regex.nodes() {
        if !put_node(&mut text, *node)? {
            return Ok(None);
        }
    }
    Ok(Some(Sequence::from_vec(text)))
}

// Puts the byte of a node after a text, and answers whether the node is a single byte or a row of its parts.
fn put_node(text: &mut Vec<u8>, node: RegexNode) -> Result<bool, AllocError>
    ensures { IfOk result (λ plain. plain ≡ true → Adds node text.old.items text.new.items) }
{
    match node {
        RegexNode::Set(words) => put_single(text, &words),
        RegexNode::Sequence(_, _) => Ok(true),
        RegexNode::Choice(_, _) => Ok(false),
        RegexNode::Star(_) => Ok(false),
        RegexNode::Plus(_) => Ok(false),
        RegexNode::Maybe(_) => Ok(false),
    }
}

// Puts the byte of a set that has one alone after a text, and answers whether it has.
fn put_single(text: &mut Vec<u8>, words: &[u64; 4]) -> Result<bool, AllocError>
    ensures { IfOk result (λ single. single ≡ true → AddsSingle words.now text.old.items text.new.items) }
{
    let Some(byte) = single(words) else {
        return Ok(false);
    };
    push(text, byte)?;
    Ok(true)
}

// The byte of a set that has one alone.
fn single(words: &[u64; 4]) -> Option<u8>
    ensures { IfSome result (IsSingle words.now) }
{
    let byte = first_from(words, 0)?;
    if first_from(words, byte + 1).is_some() {
        return None;
    }
    Some(byte as u8)
}

// The least byte of a set from this one on.
fn first_from(words: &[u64; 4], from: usize) -> Option<usize>
    requires { from ≤ 256 }
    ensures below { IfSome result (λ byte. byte < 256) }
    ensures some { IfSome result (λ byte. (c : ℕ) → HoldsByte words.now c → from ≤ c → byte ≤ c) }
    ensures none { IfNone result ((c : ℕ) → HoldsByte words.now c → c < from) }
{
    'bytes: for byte in from..256 {
        if has_byte(words, byte) {
            return Some(byte);
        }
    }
    None
}
