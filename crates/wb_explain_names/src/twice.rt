//! What is said of a name that is declared twice?

use std::alloc::AllocError;
use wb_explain_names_roles::declared::{declared_in_host, forward_count};
use wb_explain_names_roles::mention::Mention;
use wb_explain_names_roles::role::{
    Role, is_attribute, is_given, is_label, is_production, is_symbol,
};
use wb_explain_names_roles::script::{
    Script, say, say_around, say_name, say_number, show_found, show_own,
};
use wb_explain_names_roles::side::{
    Found, Side, Sides, line_of, name_of, owner_of, side_of, text_after, text_before,
};

// The most declarations of a name that are looked at.
const MOST: usize = 300;

// Appends what is said of such a name.
pub(crate) fn say_twice(script: &mut Script, sides: &Sides<'_>) -> Result<(), AllocError> {
    let mut seen: usize = 0;
    'mentions: for mention in sides.own.mentions {
        if seen < MOST && name_of(&sides.own, *mention) == sides.name {
            seen = seen.saturating_add(1);
            if say_if_twice(script, sides, *mention)? {
                return Ok(());
            }
        }
    }
    Ok(())
}

// Appends what is said of a declaration that is the second, and answers whether it is.
fn say_if_twice(
    script: &mut Script,
    sides: &Sides<'_>,
    second: Mention,
) -> Result<bool, AllocError> {
    if second.role == Role::Start {
        return say_if_second_start(script, sides, second);
    }
    if is_production(second.role) && forward_count(&sides.own, second) > 1 {
        say_two_forwards(script, sides, second)?;
        return Ok(true);
    }
    match first_of(sides, second) {
        Some(first) => {
            say_pair(script, sides, first, second)?;
            Ok(true)
        }
        None => Ok(false),
    }
}

// The declaration of the same thing before another, that of the host first.
fn first_of(sides: &Sides<'_>, second: Mention) -> Option<Found> {
    match same_in(&sides.host, sides.host.tokens.len(), sides, second) {
        Some(mention) => Some(Found {
            is_host: true,
            mention,
        }),
        None => match same_in(&sides.own, second.token, sides, second) {
            Some(mention) => Some(Found {
                is_host: false,
                mention,
            }),
            None => None,
        },
    }
}

// The first declaration of a file, before this token, that is of the same thing as another.
fn same_in(side: &Side<'_>, end: usize, sides: &Sides<'_>, second: Mention) -> Option<Mention> {
    'mentions: for mention in side.mentions {
        if mention.token >= end {
            return None;
        }
        if name_of(side, *mention) == sides.name && is_same(side, *mention, &sides.own, second) {
            return Some(*mention);
        }
    }
    None
}

// Whether two names that are one declare the same thing.
fn is_same(side: &Side<'_>, first: Mention, own: &Side<'_>, second: Mention) -> bool {
    if is_symbol(second.role) {
        return is_symbol(first.role);
    }
    if is_attribute(second.role) {
        return is_attribute(first.role);
    }
    if is_label(second.role) {
        return is_label(first.role) && has_one_owner(side, first, own, second);
    }
    if first.role != second.role {
        return false;
    }
    match second.role {
        Role::Occurring => text_after(side, first, 2) == text_after(own, second, 2),
        Role::Preferred => text_after(side, first, 2) == text_after(own, second, 2),
        Role::Extensible => true,
        Role::Closed => true,
        Role::ForwardOn => true,
        _ => is_given(second.role) && is_same_equation(side, first, own, second),
    }
}

// Whether both are in one production.
fn has_one_owner(side: &Side<'_>, first: Mention, own: &Side<'_>, second: Mention) -> bool {
    owner_of(side, first) == owner_of(own, second)
}

// Whether both are given by equations of one production, to one tree.
fn is_same_equation(side: &Side<'_>, first: Mention, own: &Side<'_>, second: Mention) -> bool {
    if !has_one_owner(side, first, own, second) {
        return false;
    }
    second.role != Role::Given || text_before(side, first) == text_before(own, second)
}

// Appends both places, with what is declared there.
fn say_pair(
    script: &mut Script,
    sides: &Sides<'_>,
    first: Found,
    second: Mention,
) -> Result<(), AllocError> {
    say_what(script, sides, second)?;
    if first.is_host {
        say(script, " The host has it:\n")?;
    } else {
        say(script, " First here:\n")?;
    }
    show_found(script, first)?;
    say(script, "\nAnd here:\n")?;
    show_own(script, second)?;
    say_mending(script, second.role)
}

// Appends what is there twice.
fn say_what(script: &mut Script, sides: &Sides<'_>, second: Mention) -> Result<(), AllocError> {
    let own = &sides.own;
    if is_symbol(second.role) || is_attribute(second.role) {
        return say_around(script, "\n", sides.name, " is declared twice.");
    }
    if is_label(second.role) {
        say_around(
            script,
            "\nTwo children or locals of the production ",
            owner_of(own, second),
            " have the label ",
        )?;
        return say_around(script, "", sides.name, ".");
    }
    if is_given(second.role) {
        return say_equation(script, sides, second);
    }
    match second.role {
        Role::Occurring => {
            say_around(script, "\nThat ", sides.name, " occurs on ")?;
            say_around(script, "", text_after(own, second, 2), " is said twice.")
        }
        Role::Preferred => {
            say_around(script, "\nThat ", sides.name, " is preferred to ")?;
            say_around(script, "", text_after(own, second, 2), " is said twice.")
        }
        _ => say_around(script, "\nThe same is said of ", sides.name, " twice."),
    }
}

// Appends for what there are two equations.
fn say_equation(script: &mut Script, sides: &Sides<'_>, second: Mention) -> Result<(), AllocError> {
    say_around(
        script,
        "\nThe production ",
        owner_of(&sides.own, second),
        " has two equations for ",
    )?;
    match second.role {
        Role::GivenTop => say(script, "top")?,
        Role::GivenForward => say(script, "forward")?,
        _ => say_name(script, text_before(&sides.own, second))?,
    }
    say_around(script, ".", sides.name, ".")
}

// Appends what mends it.
fn say_mending(script: &mut Script, role: Role) -> Result<(), AllocError> {
    if is_label(role) {
        return say(script, "\nGive one of them another label.\n");
    }
    if is_symbol(role) || is_attribute(role) {
        return say(
            script,
            "\nGive one of them another name, or leave it out.\n",
        );
    }
    say(script, "\nLeave one of them out.\n")
}

// Appends what is said of a second start, and answers whether it is the second.
fn say_if_second_start(
    script: &mut Script,
    sides: &Sides<'_>,
    second: Mention,
) -> Result<bool, AllocError> {
    'mentions: for mention in sides.own.mentions {
        if mention.token >= second.token {
            return Ok(false);
        }
        if mention.role == Role::Start {
            say(
                script,
                "\nTwo starts are named, and there is one. The first is ",
            )?;
            say_name(script, name_of(&sides.own, *mention))?;
            say(script, ", in line ")?;
            say_number(script, line_of(&sides.own, *mention))?;
            say(script, ". The second is here:\n")?;
            show_own(script, second)?;
            say(script, "\nLeave one of them out.\n")?;
            return Ok(true);
        }
    }
    Ok(false)
}

// Appends what is said of a production that forwards twice.
fn say_two_forwards(
    script: &mut Script,
    sides: &Sides<'_>,
    mention: Mention,
) -> Result<(), AllocError> {
    say_around(
        script,
        "\nThe production ",
        sides.name,
        " says twice to what it forwards:\n",
    )?;
    show_own(script, mention)?;
    say(script, "\nLeave one of the two equations out.\n")
}

// Appends as what the host declares a name.
pub(crate) fn say_of_host(
    script: &mut Script,
    sides: &Sides<'_>,
    name: &[u8],
    as_attribute: bool,
) -> Result<(), AllocError> {
    match declared_in_host(sides, name, as_attribute) {
        Some(found) => {
            say_around(script, "\nThe host declares ", name, " in its line ")?;
            let side = side_of(sides, true);
            say_number(script, line_of(&side, found.mention))?;
            say(script, ".\n")
        }
        None => Ok(()),
    }
}
