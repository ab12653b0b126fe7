//! What is said of an extension that is for another host?

use std::alloc::AllocError;
use wb_explain_names_roles::mention::Mention;
use wb_explain_names_roles::role::Role;
use wb_explain_names_roles::script::{Script, say, say_around, show_own};
use wb_explain_names_roles::side::{Side, Sides, name_of};

// Appends what is said of it.
pub(crate) fn say_host_name(script: &mut Script, sides: &Sides<'_>) -> Result<(), AllocError> {
    let Some(mention) = first_in(&sides.own, Role::OtherHost) else {
        return Ok(());
    };
    if name_of(&sides.own, mention) != sides.name {
        return Ok(());
    }
    say_around(
        script,
        "\nThis extension is for the host ",
        sides.name,
        ":\n",
    )?;
    show_own(script, mention)?;
    let Some(host) = first_in(&sides.host, Role::Host) else {
        return Ok(());
    };
    let name = name_of(&sides.host, host);
    say_around(
        script,
        "\nThe file that is named as its host is the host ",
        name,
        ".\n",
    )?;
    say_first_line(script, sides, name)
}

// Appends the first line of an extension for the host that is there.
fn say_first_line(script: &mut Script, sides: &Sides<'_>, host: &[u8]) -> Result<(), AllocError> {
    say(
        script,
        "\nName the file of the right host, or write:\n\n    ",
    )?;
    if let Some(own) = first_in(&sides.own, Role::Extension) {
        say_around(script, "extension ", name_of(&sides.own, own), " ")?;
    }
    say_around(script, "for ", host, ";\n")
}

// The first name of a file in a role.
fn first_in(side: &Side<'_>, role: Role) -> Option<Mention> {
    'mentions: for mention in side.mentions {
        if mention.role == role {
            return Some(*mention);
        }
    }
    None
}
