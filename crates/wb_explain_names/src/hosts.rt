//! What is said of a name of which an extension says what only its host may say?

use crate::twice::say_of_host;
use std::alloc::AllocError;
use wb_explain_names_roles::declared::{declared_in, has_role, label_of, occurs_in, tree_of};
use wb_explain_names_roles::mention::Mention;
use wb_explain_names_roles::role::{Role, is_given};
use wb_explain_names_roles::script::{Script, say, say_around, show_own};
use wb_explain_names_roles::side::{Sides, name_of, owner_of, text_after, text_at, text_before};

// The most uses of a name that are looked at.
const MOST: usize = 300;

// What only the host may say.
#[derive(Clone, Copy, PartialEq)]
enum Hosts {
    // Nothing of it.
    Nothing,
    // What the start is.
    Start,
    // What is extensible.
    Extensible,
    // What is closed.
    Closed,
    // What layout is.
    Layout,
    // What forwards of a nonterminal of the host may read.
    Forwards,
    // Where an attribute of the host occurs.
    Occurrence,
    // What occurs on a nonterminal that is closed.
    OnClosed,
    // Which of two terminals of the host is preferred.
    Preference,
    // What an attribute of the host is at a production of the host.
    Equation,
}

// Appends what is said of such a name.
pub(crate) fn say_hosts(script: &mut Script, sides: &Sides<'_>) -> Result<(), AllocError> {
    let mut seen: usize = 0;
    'mentions: for mention in sides.own.mentions {
        if seen < MOST && name_of(&sides.own, *mention) == sides.name {
            seen = seen.saturating_add(1);
            let hosts = hosts_of(sides, *mention);
            if hosts != Hosts::Nothing {
                return say_one(script, sides, *mention, hosts);
            }
        }
    }
    Ok(())
}

// What only the host may say by this name.
fn hosts_of(sides: &Sides<'_>, mention: Mention) -> Hosts {
    match mention.role {
        Role::Start => Hosts::Start,
        Role::Extensible => Hosts::Extensible,
        Role::Closed => Hosts::Closed,
        Role::Ignore => unless(is_of_format_2(sides), Hosts::Layout),
        Role::ForwardOn => unless(is_own(sides, sides.name), Hosts::Forwards),
        Role::Occurring => of_occurrence(sides, text_after(&sides.own, mention, 2)),
        Role::Preferred => of_preference(sides, text_after(&sides.own, mention, 2)),
        _ => unless(!is_of_host(sides, mention), Hosts::Equation),
    }
}

// Whether the file is of format 2, in which an extension has layout of its own. The number of a file's format is its second token.
fn is_of_format_2(sides: &Sides<'_>) -> bool {
    text_at(&sides.own, 1).ends_with("2".as_bytes())
}

// Nothing, where the extension may say it.
fn unless(may: bool, hosts: Hosts) -> Hosts {
    if may { Hosts::Nothing } else { hosts }
}

// Whether the file declares the name, as no attribute.
fn is_own(sides: &Sides<'_>, name: &[u8]) -> bool {
    declared_in(&sides.own, name, false).is_some()
}

// What only the host may say by an occurrence on this nonterminal.
fn of_occurrence(sides: &Sides<'_>, nonterminal: &[u8]) -> Hosts {
    if has_role(&sides.host, nonterminal, Role::Closed) {
        return Hosts::OnClosed;
    }
    let may = is_own(sides, nonterminal) || declared_in(&sides.own, sides.name, true).is_some();
    unless(may, Hosts::Occurrence)
}

// What only the host may say by a preference to this terminal.
fn of_preference(sides: &Sides<'_>, second: &[u8]) -> Hosts {
    unless(
        is_own(sides, sides.name) || is_own(sides, second),
        Hosts::Preference,
    )
}

// Whether an equation for the name is the host's to write.
fn is_of_host(sides: &Sides<'_>, mention: Mention) -> bool {
    if !is_given(mention.role) {
        return false;
    }
    let production = owner_of(&sides.own, mention);
    if declared_in(&sides.host, production, false).is_none() || is_own_local(sides, mention) {
        return false;
    }
    match tree_of(sides, mention) {
        Some(nonterminal) => !occurs_in(&sides.own, sides.name, nonterminal),
        None => false,
    }
}

// Whether the attribute is given to a local that the file declares.
fn is_own_local(sides: &Sides<'_>, mention: Mention) -> bool {
    if mention.role != Role::Given {
        return false;
    }
    let production = owner_of(&sides.own, mention);
    match label_of(sides, production, text_before(&sides.own, mention)) {
        Some(found) => !found.is_host,
        None => false,
    }
}

// Appends what is said of one thing that only the host may say.
fn say_one(
    script: &mut Script,
    sides: &Sides<'_>,
    mention: Mention,
    hosts: Hosts,
) -> Result<(), AllocError> {
    say(script, "\n")?;
    say(script, words_of(hosts))?;
    say(script, ":\n")?;
    show_own(script, mention)?;
    let as_attribute = hosts == Hosts::Occurrence
        || hosts == Hosts::OnClosed
        || hosts == Hosts::Equation;
    say_of_host(script, sides, sides.name, as_attribute)?;
    say_beside(script, sides, mention, hosts)?;
    say_mending(script, hosts)
}

// What only the host may say, in words.
fn words_of(hosts: Hosts) -> &'static str {
    match hosts {
        Hosts::Nothing => "Only the host may say this",
        Hosts::Start => "Only the host names the start",
        Hosts::Extensible => "Only the host says what is extensible",
        Hosts::Closed => "Only the host says what is closed",
        Hosts::Layout => "In a file of format 1 only the host declares layout",
        Hosts::Forwards => {
            "Only the host says what forwards of a nonterminal of the host may read"
        }
        Hosts::Occurrence => {
            "Only the host says where an attribute of the host occurs on a nonterminal of the host"
        }
        Hosts::OnClosed => "Only attributes of the host occur on a nonterminal that it closed",
        Hosts::Preference => "Only the host prefers one terminal of the host to another",
        Hosts::Equation => {
            "Only the host has equations of its productions for what the host lets occur there"
        }
    }
}

// Appends what is known of the other name beside it.
fn say_beside(
    script: &mut Script,
    sides: &Sides<'_>,
    mention: Mention,
    hosts: Hosts,
) -> Result<(), AllocError> {
    match hosts {
        Hosts::Occurrence => {
            say_of_host(script, sides, text_after(&sides.own, mention, 2), false)
        }
        Hosts::OnClosed => say_of_host(script, sides, text_after(&sides.own, mention, 2), false),
        Hosts::Preference => say_of_host(script, sides, text_after(&sides.own, mention, 2), false),
        Hosts::Equation => say_production(script, sides, owner_of(&sides.own, mention)),
        _ => Ok(()),
    }
}

// Appends that a production is the host's.
fn say_production(
    script: &mut Script,
    sides: &Sides<'_>,
    production: &[u8],
) -> Result<(), AllocError> {
    say_of_host(script, sides, production, false)
}

// Appends what mends it.
fn say_mending(script: &mut Script, hosts: Hosts) -> Result<(), AllocError> {
    match hosts {
        Hosts::Occurrence => say(
            script,
            "\nLet an attribute of the extension occur there, or change the host.\n",
        ),
        Hosts::OnClosed => say(
            script,
            "\nLet it occur on a nonterminal that isn't closed, or change the host.\n",
        ),
        Hosts::Layout => say(
            script,
            "\nBegin the file with  format 2; , by which an extension has layout of its own.\n",
        ),
        Hosts::Preference => say(
            script,
            "\nPrefer a terminal of the extension, or change the host.\n",
        ),
        Hosts::Equation => say(
            script,
            "\nWrite equations of an aspect for an attribute of the extension, or change the host.\n",
        ),
        _ => say(script, "\nLeave it out, or write it into the host.\n"),
    }
}
