//! Why isn't a name declared where it is used?

use crate::declared::{declared, forwards, label_of, nonterminal_if, occurs, tree_of};
use crate::mention::Mention;
use crate::role::{Role, Wanted, is_given, is_label_use, is_read, wanted_by, wants_attribute};
use crate::side::{Sides, name_of, owner_of};

// The most uses of a name that are looked at.
const MOST: usize = 300;

/// Why a name isn't declared where it is used.
#[derive(Clone, Copy, PartialEq)]
pub enum Reason {
    /// It is declared, or no reason is known.
    Fits,
    /// Nothing of its sort has the name.
    Undeclared,
    /// The attribute doesn't occur on the nonterminal of the tree, or of the flow type.
    Elsewhere,
    /// The production doesn't forward.
    NoForward,
    /// The production doesn't have the label.
    NoLabel,
}

/// A use of the name with its number among the names of the file, and why it isn't declared there.
#[derive(Clone, Copy)]
pub struct Wrong {
    pub number: usize,
    pub mention: Mention,
    pub reason: Reason,
}

/// The first use of the name, from this number on, for which it isn't declared.
pub fn wrong_from(sides: &Sides<'_>, from: usize) -> Option<Wrong> {
    let mut seen: usize = 0;
    'mentions: for number in from..sides.own.mentions.len() {
        let mention = sides.own.mentions[number];
        if seen < MOST && name_of(&sides.own, mention) == sides.name {
            seen = seen.saturating_add(1);
            let reason = reason_of(sides, mention);
            if reason != Reason::Fits {
                return Some(Wrong {
                    number,
                    mention,
                    reason,
                });
            }
        }
    }
    None
}

// Why the name isn't declared where it is used so.
fn reason_of(sides: &Sides<'_>, mention: Mention) -> Reason {
    if is_label_use(mention.role) {
        return label_reason(sides, mention);
    }
    let asked = wanted_by(mention.role, mention.item);
    if asked == Wanted::Nothing {
        return Reason::Fits;
    }
    if declared(sides, sides.name, wants_attribute(asked)).is_none() {
        return Reason::Undeclared;
    }
    attribute_reason(sides, mention)
}

// Why a label isn't one of its production.
fn label_reason(sides: &Sides<'_>, mention: Mention) -> Reason {
    let production = owner_of(&sides.own, mention);
    if declared(sides, production, false).is_none() {
        return Reason::Fits;
    }
    if label_of(sides, production, sides.name).is_none() {
        return Reason::NoLabel;
    }
    Reason::Fits
}

// Why an attribute that is declared can't be there.
fn attribute_reason(sides: &Sides<'_>, mention: Mention) -> Reason {
    if has_no_forward(sides, mention) {
        return Reason::NoForward;
    }
    match nonterminal_of(sides, mention) {
        Some(nonterminal) => elsewhere_unless(occurs(sides, sides.name, nonterminal)),
        None => Reason::Fits,
    }
}

// That it occurs elsewhere, or that it fits.
fn elsewhere_unless(occurs: bool) -> Reason {
    if occurs {
        Reason::Fits
    } else {
        Reason::Elsewhere
    }
}

// Whether it is of the forwarded tree of a production that doesn't forward.
fn has_no_forward(sides: &Sides<'_>, mention: Mention) -> bool {
    let is_forward = mention.role == Role::GivenForward || mention.role == Role::ReadForward;
    is_forward && !forwards(sides, owner_of(&sides.own, mention))
}

/// The nonterminal on which an attribute has to occur where it is used so.
pub fn nonterminal_of<'a>(sides: &Sides<'a>, mention: Mention) -> Option<&'a [u8]> {
    if mention.role == Role::Needed {
        return nonterminal_if(sides, owner_of(&sides.own, mention));
    }
    if is_given(mention.role) || is_read(mention.role) {
        return tree_of(sides, mention);
    }
    None
}
