//! What is said of a production or a marker of an extension, where a production doesn't begin with its marker?

use std::alloc::AllocError;
use wb_explain_names_roles::declared::{declared, declared_in, has_role};
use wb_explain_names_roles::lists::{Listing, say_list};
use wb_explain_names_roles::mention::Mention;
use wb_explain_names_roles::role::{Role, is_production};
use wb_explain_names_roles::script::{Script, say, say_around, show_own};
use wb_explain_names_roles::side::{Sides, name_of, owner_of, text_after, text_at};

// The most places that are shown.
const MOST: usize = 4;

// How many tokens after the name of a production the kind of its first child is.
const FIRST_KIND: usize = 6;

// Appends what is said of a production that doesn't begin with a marker.
pub(crate) fn say_unmarked(script: &mut Script, sides: &Sides<'_>) -> Result<(), AllocError> {
    let Some(production) = production_of(sides) else {
        return Ok(());
    };
    say_around(script, "\nThe production ", sides.name, " is on ")?;
    say_around(
        script,
        "",
        text_after(&sides.own, production, 2),
        ", a nonterminal of the host, and its first child is no marker:\n",
    )?;
    show_own(script, production)?;
    say_children(script, sides)?;
    let count = say_list(
        script,
        sides,
        Listing::InRole(Role::Marking),
        "\nThe markers of the file: ",
    )?;
    if count == 0 {
        return say(
            script,
            "\nThe file has no marker. Declare one by  marking NAME /../;  and make it the first child.\n",
        );
    }
    say(
        script,
        "\nMake a marker the first child. Each marker begins one production alone.\n",
    )
}

// The production of the name, as the file declares it.
fn production_of(sides: &Sides<'_>) -> Option<Mention> {
    match declared_in(&sides.own, sides.name, false) {
        Some(mention) => {
            if is_production(mention.role) {
                return Some(mention);
            }
            None
        }
        None => None,
    }
}

// Appends which children of the production are markers.
fn say_children(script: &mut Script, sides: &Sides<'_>) -> Result<(), AllocError> {
    let mut count: usize = 0;
    'mentions: for mention in sides.own.mentions {
        if count < MOST && is_marked_child(sides, *mention) {
            count = count.saturating_add(1);
            say_around(
                script,
                "\nIts child ",
                name_of(&sides.own, *mention),
                " is the marker ",
            )?;
            say_around(
                script,
                "",
                text_after(&sides.own, *mention, 2),
                ", which comes too late there.\n",
            )?;
        }
    }
    Ok(())
}

// Whether a name labels a child of the production that is a marker.
fn is_marked_child(sides: &Sides<'_>, mention: Mention) -> bool {
    mention.role == Role::ChildLabel
        && owner_of(&sides.own, mention) == sides.name
        && has_role(
            &sides.own,
            text_after(&sides.own, mention, 2),
            Role::Marking,
        )
}

// Appends what is said of a marker that doesn't begin exactly one production on a nonterminal of the host, or is elsewhere.
pub(crate) fn say_marker(script: &mut Script, sides: &Sides<'_>) -> Result<(), AllocError> {
    let mut count: usize = 0;
    'mentions: for mention in sides.own.mentions {
        if count < MOST && is_child_kind(sides, *mention) {
            count = count.saturating_add(1);
            say_child(script, sides, *mention)?;
        }
    }
    if count == 0 {
        return say_unused(script, sides);
    }
    say(
        script,
        "\nA marker is the first child of one production, which is on a nonterminal of the host, and is\nnowhere else. Declare another marker for each further production, and write a terminal elsewhere.\n",
    )
}

// Whether a child of a production is of the name.
fn is_child_kind(sides: &Sides<'_>, mention: Mention) -> bool {
    mention.role == Role::ChildKind && name_of(&sides.own, mention) == sides.name
}

// Appends where a marker is in a production.
fn say_child(script: &mut Script, sides: &Sides<'_>, mention: Mention) -> Result<(), AllocError> {
    let production = owner_of(&sides.own, mention);
    let left = text_at(&sides.own, mention.owner.saturating_add(2));
    if mention.token != mention.owner.saturating_add(FIRST_KIND) {
        say_around(
            script,
            "\nIn the production ",
            production,
            " the marker isn't the first child:\n",
        )?;
        return show_own(script, mention);
    }
    if declared_in(&sides.own, left, false).is_some() {
        say_around(
            script,
            "\nIt begins the production ",
            production,
            ", which is on ",
        )?;
        say_around(
            script,
            "",
            left,
            ", a nonterminal of the extension itself:\n",
        )?;
        return show_own(script, mention);
    }
    say_around(script, "\nIt begins the production ", production, ":\n")?;
    show_own(script, mention)
}

// Appends what is said of a marker that no production has.
fn say_unused(script: &mut Script, sides: &Sides<'_>) -> Result<(), AllocError> {
    let Some(marker) = declared_in(&sides.own, sides.name, false) else {
        return Ok(());
    };
    say(script, "\nNo production has this marker:\n")?;
    show_own(script, marker)?;
    say_extensible(script, sides)?;
    say(
        script,
        "\nWrite a production on one of these nonterminals whose first child is the marker, or leave the\nmarker out.\n",
    )
}

// Appends which nonterminals the host makes extensible.
fn say_extensible(script: &mut Script, sides: &Sides<'_>) -> Result<(), AllocError> {
    let count = say_list(
        script,
        sides,
        Listing::InRole(Role::Extensible),
        "\nExtensible in the host: ",
    )?;
    if count == 0 {
        return say(script, "\nThe host makes no nonterminal extensible.\n");
    }
    Ok(())
}

// Appends what is said of a production on a nonterminal that isn't extensible.
pub(crate) fn say_not_extensible(script: &mut Script, sides: &Sides<'_>) -> Result<(), AllocError> {
    let Some(production) = production_of(sides) else {
        return Ok(());
    };
    let left = text_after(&sides.own, production, 2);
    say_around(
        script,
        "\nThe production ",
        sides.name,
        " begins with a marker and is on ",
    )?;
    say_around(
        script,
        "",
        left,
        ", which the host doesn't make\nextensible:\n",
    )?;
    show_own(script, production)?;
    say_extensible(script, sides)?;
    if declared(sides, left, false).is_none() {
        return Ok(());
    }
    say_around(
        script,
        "\nWrite the production on one of these, or make this one extensible in the host:\n\n    extensible ",
        left,
        ";\n",
    )
}
