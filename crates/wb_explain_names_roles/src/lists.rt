//! Which names could be meant, and which are there?

use crate::mention::Mention;
use crate::near::is_near;
use crate::role::{Role, Wanted, is_label, suits};
use crate::script::{Script, say, say_name, say_number};
use crate::side::{Side, Sides, line_of, name_of, owner_of, text_after, text_before};
use std::alloc::AllocError;

// The most names of a list.
const MOST: usize = 24;

// The most bytes of a line of a list.
const WIDTH: usize = 80;

// The most names that could be meant.
const NEAR: usize = 3;

/// Which names are listed.
#[derive(Clone, Copy)]
pub enum Listing<'a> {
    /// Those that may be where this is wanted.
    Suiting(Wanted),
    /// The nonterminals on which this attribute occurs.
    PlacesOf(&'a [u8]),
    /// The attributes that occur on this nonterminal.
    AttributesOf(&'a [u8]),
    /// The labels of this production.
    LabelsOf(&'a [u8]),
    /// Those in this role.
    InRole(Role),
}

// Whether a name is listed.
fn is_listed(side: &Side<'_>, mention: Mention, listing: Listing<'_>) -> bool {
    match listing {
        Listing::Suiting(wanted) => suits(wanted, mention.role),
        Listing::PlacesOf(attribute) => {
            mention.role == Role::OccursOn && text_before(side, mention) == attribute
        }
        Listing::AttributesOf(nonterminal) => {
            mention.role == Role::Occurring && text_after(side, mention, 2) == nonterminal
        }
        Listing::LabelsOf(production) => {
            is_label(mention.role) && owner_of(side, mention) == production
        }
        Listing::InRole(role) => mention.role == role,
    }
}

/// How far a list is.
#[derive(Clone, Copy)]
pub struct Line {
    // How many names it has.
    count: usize,
    // How many bytes its last line has.
    width: usize,
}

/// A list without names.
pub fn empty_list() -> Line {
    Line { count: 0, width: 0 }
}

/// Appends a list of names after these words, and answers how many there are; nothing where there are none.
pub fn say_list(
    script: &mut Script,
    sides: &Sides<'_>,
    listing: Listing<'_>,
    heading: &str,
) -> Result<usize, AllocError> {
    let own = list_side(script, &sides.own, listing, heading, empty_list())?;
    let both = list_side(script, &sides.host, listing, heading, own)?;
    end_list(script, both)?;
    Ok(both.count)
}

// Appends the names of a file that are listed.
fn list_side(
    script: &mut Script,
    side: &Side<'_>,
    listing: Listing<'_>,
    heading: &str,
    line: Line,
) -> Result<Line, AllocError> {
    let mut now = line;
    'mentions: for mention in side.mentions {
        if is_listed(side, *mention, listing) {
            now = list_name(script, now, heading, name_of(side, *mention))?;
        }
    }
    Ok(now)
}

/// Appends a name to a list that begins with these words.
pub fn list_name(
    script: &mut Script,
    line: Line,
    heading: &str,
    name: &[u8],
) -> Result<Line, AllocError> {
    if line.count >= MOST {
        return Ok(longer(line, line.width));
    }
    let width = begin_name(script, line, heading, name.len())?;
    say_name(script, name)?;
    Ok(longer(line, width.saturating_add(name.len())))
}

// The list with one name more, whose last line has so many bytes.
fn longer(line: Line, width: usize) -> Line {
    Line {
        count: line.count.saturating_add(1),
        width,
    }
}

// Appends what comes before a name of this length, and answers how many bytes its line has then.
fn begin_name(
    script: &mut Script,
    line: Line,
    heading: &str,
    length: usize,
) -> Result<usize, AllocError> {
    if line.count == 0 {
        say(script, heading)?;
        return Ok(heading.len());
    }
    if line.width.saturating_add(length) > WIDTH {
        say(script, ",\n")?;
        return Ok(0);
    }
    say(script, ", ")?;
    Ok(line.width.saturating_add(2))
}

/// Appends the end of a list.
pub fn end_list(script: &mut Script, line: Line) -> Result<(), AllocError> {
    if line.count == 0 {
        return Ok(());
    }
    if line.count > MOST {
        say(script, " and ")?;
        say_number(script, line.count - MOST)?;
        say(script, " more")?;
    }
    say(script, ".\n")
}

/// Appends the listed names that are one edit from this one, and answers how many there are.
pub fn say_near(
    script: &mut Script,
    sides: &Sides<'_>,
    listing: Listing<'_>,
) -> Result<usize, AllocError> {
    let own = near_side(script, &sides.own, sides.name, listing, ".\n")?;
    let host = near_side(script, &sides.host, sides.name, listing, " of the host.\n")?;
    Ok(own.saturating_add(host))
}

// Appends those of a file.
fn near_side(
    script: &mut Script,
    side: &Side<'_>,
    name: &[u8],
    listing: Listing<'_>,
    after: &str,
) -> Result<usize, AllocError> {
    let mut count: usize = 0;
    'mentions: for mention in side.mentions {
        if count < NEAR && is_listed(side, *mention, listing) {
            count = count.saturating_add(say_if_near(script, side, *mention, name, after)?);
        }
    }
    Ok(count)
}

// Appends a name where it is one edit from another, and answers whether it is by 1 or 0.
fn say_if_near(
    script: &mut Script,
    side: &Side<'_>,
    mention: Mention,
    name: &[u8],
    after: &str,
) -> Result<usize, AllocError> {
    let other = name_of(side, mention);
    if !is_near(name, other) {
        return Ok(0);
    }
    say(script, "\nPerhaps ")?;
    say_name(script, other)?;
    say(script, " is meant, which is in line ")?;
    say_number(script, line_of(side, mention))?;
    say(script, after)?;
    Ok(1)
}
