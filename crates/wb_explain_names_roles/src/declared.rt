//! Where is something declared, in the file or in its host's?

use crate::mention::{Mention, kind_of};
use crate::role::{Role, is_attribute, is_label, is_production, is_symbol};
use crate::side::{Found, Side, Sides, name_of, owner_of, side_of, text_after, text_before};
use wb_text_tokens::{TokenKind, Word};

/// Where a name is declared: as an attribute, or as something else that is no label.
pub fn declared(sides: &Sides<'_>, name: &[u8], as_attribute: bool) -> Option<Found> {
    match declared_in(&sides.own, name, as_attribute) {
        Some(mention) => Some(found(false, mention)),
        None => declared_in_host(sides, name, as_attribute),
    }
}

/// Where the host declares it.
pub fn declared_in_host(sides: &Sides<'_>, name: &[u8], as_attribute: bool) -> Option<Found> {
    match declared_in(&sides.host, name, as_attribute) {
        Some(mention) => Some(found(true, mention)),
        None => None,
    }
}

// A name of one of the two files.
fn found(is_host: bool, mention: Mention) -> Found {
    Found { is_host, mention }
}

/// Where a file declares it.
pub fn declared_in(side: &Side<'_>, name: &[u8], as_attribute: bool) -> Option<Mention> {
    'mentions: for mention in side.mentions {
        if declares(mention.role, as_attribute) && name_of(side, *mention) == name {
            return Some(*mention);
        }
    }
    None
}

// Whether a name of this role declares an attribute, or something else that is no label.
pub(crate) fn declares(role: Role, as_attribute: bool) -> bool {
    if as_attribute {
        return is_attribute(role);
    }
    is_symbol(role)
}

/// Where a production has a label.
pub fn label_of(sides: &Sides<'_>, production: &[u8], label: &[u8]) -> Option<Found> {
    match label_in(&sides.own, production, label) {
        Some(mention) => Some(found(false, mention)),
        None => match label_in(&sides.host, production, label) {
            Some(mention) => Some(found(true, mention)),
            None => None,
        },
    }
}

// Where a file gives a production a label.
fn label_in(side: &Side<'_>, production: &[u8], label: &[u8]) -> Option<Mention> {
    'mentions: for mention in side.mentions {
        if is_label(mention.role) && is_name_in(side, *mention, production, label) {
            return Some(*mention);
        }
    }
    None
}

// Whether this is such a name, in such a production.
fn is_name_in(side: &Side<'_>, mention: Mention, production: &[u8], name: &[u8]) -> bool {
    name_of(side, mention) == name && owner_of(side, mention) == production
}

/// The name of what a label is a tree or a word of; none of a child of kind int, bool or text.
pub fn kind_name<'a>(sides: &Sides<'a>, label: Found) -> Option<&'a [u8]> {
    let side = side_of(sides, label.is_host);
    if kind_of(side.tokens, label.mention.token.saturating_add(2)) == TokenKind::Name {
        return Some(text_after(&side, label.mention, 2));
    }
    None
}

// What a production has on its left, where it is declared.
pub(crate) fn left_of<'a>(sides: &Sides<'a>, production: &[u8]) -> Option<&'a [u8]> {
    match declared(sides, production, false) {
        Some(found) => left_if(&side_of(sides, found.is_host), found.mention),
        None => None,
    }
}

// What a name that declares a production has on its left.
fn left_if<'a>(side: &Side<'a>, mention: Mention) -> Option<&'a [u8]> {
    if is_production(mention.role) {
        return Some(text_after(side, mention, 2));
    }
    None
}

/// The nonterminal of the tree of which an attribute is given or read, where it is known.
pub fn tree_of<'a>(sides: &Sides<'a>, mention: Mention) -> Option<&'a [u8]> {
    let production = owner_of(&sides.own, mention);
    let tree = match mention.role {
        Role::Given => tree_at_label(sides, production, text_before(&sides.own, mention)),
        Role::Read => tree_at_label(sides, production, text_before(&sides.own, mention)),
        _ => left_of(sides, production),
    };
    match tree {
        Some(name) => nonterminal_if(sides, name),
        None => None,
    }
}

// What a label of a production is a tree or a word of.
fn tree_at_label<'a>(sides: &Sides<'a>, production: &[u8], label: &[u8]) -> Option<&'a [u8]> {
    match label_of(sides, production, label) {
        Some(found) => kind_name(sides, found),
        None => None,
    }
}

// The name, where it is that of a nonterminal.
pub(crate) fn nonterminal_if<'a>(sides: &Sides<'_>, name: &'a [u8]) -> Option<&'a [u8]> {
    match declared(sides, name, false) {
        Some(found) => {
            if found.mention.role == Role::Nonterminal {
                return Some(name);
            }
            None
        }
        None => None,
    }
}

// Whether an attribute occurs on a nonterminal.
pub(crate) fn occurs(sides: &Sides<'_>, attribute: &[u8], nonterminal: &[u8]) -> bool {
    occurs_in(&sides.own, attribute, nonterminal) || occurs_in(&sides.host, attribute, nonterminal)
}

/// Whether a file says so.
pub fn occurs_in(side: &Side<'_>, attribute: &[u8], nonterminal: &[u8]) -> bool {
    'mentions: for mention in side.mentions {
        if mention.role == Role::Occurring
            && is_occurrence(side, *mention, attribute, nonterminal)
        {
            return true;
        }
    }
    false
}

// Whether this is the attribute of such an occurrence.
fn is_occurrence(side: &Side<'_>, mention: Mention, attribute: &[u8], nonterminal: &[u8]) -> bool {
    name_of(side, mention) == attribute && text_after(side, mention, 2) == nonterminal
}

/// Whether a file has a name in this role.
pub fn has_role(side: &Side<'_>, name: &[u8], role: Role) -> bool {
    'mentions: for mention in side.mentions {
        if mention.role == role && name_of(side, *mention) == name {
            return true;
        }
    }
    false
}

// Whether a production forwards, by an equation in its declaration.
pub(crate) fn forwards(sides: &Sides<'_>, production: &[u8]) -> bool {
    match declared(sides, production, false) {
        Some(found) => forward_count(&side_of(sides, found.is_host), found.mention) > 0,
        None => false,
    }
}

/// How many equations of a block, which comes after the name of its production, say to what it forwards.
pub fn forward_count(side: &Side<'_>, mention: Mention) -> usize {
    let mut count: usize = 0;
    'tokens: for number in mention.token..side.tokens.len() {
        let kind = side.tokens[number].kind;
        if kind == CLOSE {
            return count;
        }
        if kind == TokenKind::Word(Word::Forwards) {
            count = count.saturating_add(1);
        }
    }
    count
}

// The end of a block.
static CLOSE: TokenKind = TokenKind::Mark(wb_text_tokens::Punctuation::CloseBrace);
