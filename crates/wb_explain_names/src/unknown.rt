//! What is said of a name that isn't declared where it is used?

use crate::operations::say_operation;
use std::alloc::AllocError;
use wb_explain_names_roles::declared::{declared, declared_in};
use wb_explain_names_roles::lists::{Listing, say_list, say_near};
use wb_explain_names_roles::mention::Mention;
use wb_explain_names_roles::reasons::{Reason, Wrong, nonterminal_of, wrong_from};
use wb_explain_names_roles::role::{
    Role, Wanted, declared_words, is_attribute, wanted_by, wanted_words, wants_attribute,
};
use wb_explain_names_roles::script::{Script, say, say_around, say_name, say_number, show_own};
use wb_explain_names_roles::side::{Found, Sides, line_of, owner_of, side_of, text_before};
use wb_operations::OperationSignatures;
use wb_text_tokens::Word;

// How many further uses are shown.
const FURTHER: usize = 3;

// Appends what is said of such a name.
pub(crate) fn say_unknown(
    script: &mut Script,
    sides: &Sides<'_>,
    operations: &OperationSignatures,
) -> Result<(), AllocError> {
    match wrong_from(sides, 0) {
        Some(wrong) => {
            say_wrong(script, sides, wrong.mention, wrong.reason)?;
            say_further(script, sides, wrong)
        }
        None => say_operation(script, sides, operations),
    }
}

// Appends what is said of the first use for which the name isn't declared.
fn say_wrong(
    script: &mut Script,
    sides: &Sides<'_>,
    mention: Mention,
    reason: Reason,
) -> Result<(), AllocError> {
    match reason {
        Reason::Fits => Ok(()),
        Reason::Undeclared => say_undeclared(script, sides, mention),
        Reason::Elsewhere => say_elsewhere(script, sides, mention),
        Reason::NoForward => say_no_forward(script, sides, mention),
        Reason::NoLabel => say_no_label(script, sides, mention),
    }
}

// Appends the places of further uses that are wrong for the same reason.
fn say_further(script: &mut Script, sides: &Sides<'_>, wrong: Wrong) -> Result<(), AllocError> {
    let mut from = wrong.number.saturating_add(1);
    'uses: for _ in 0..FURTHER {
        let Some(next) = wrong_from(sides, from) else {
            return Ok(());
        };
        from = next.number.saturating_add(1);
        if next.reason == wrong.reason {
            say(script, "\nThe same is so here:\n")?;
            show_own(script, next.mention)?;
        }
    }
    Ok(())
}

// Appends what is said of a name that nothing of the wanted sort has.
fn say_undeclared(
    script: &mut Script,
    sides: &Sides<'_>,
    mention: Mention,
) -> Result<(), AllocError> {
    let asked = wanted_by(mention.role, mention.item);
    say_around(script, "\n", sides.name, " isn't declared")?;
    if sides.has_host {
        say(script, ", neither in the file nor in its host")?;
    }
    say_around(
        script,
        ". Here ",
        wanted_words(asked).as_bytes(),
        " is wanted",
    )?;
    if may_be_plain(mention) {
        say(script, ", or int, bool or text")?;
    }
    say(script, ":\n")?;
    show_own(script, mention)?;
    say_other_sort(script, sides, asked)?;
    say_candidates(script, sides, asked)
}

// Whether int, bool and text can be in the place of a name.
fn may_be_plain(mention: Mention) -> bool {
    mention.role == Role::AttributeKind
        || (mention.role == Role::ChildKind && mention.item == Word::Abstract)
}

// Appends which other thing has the name.
fn say_other_sort(script: &mut Script, sides: &Sides<'_>, asked: Wanted) -> Result<(), AllocError> {
    match declared(sides, sides.name, !wants_attribute(asked)) {
        Some(found) => {
            say_around(script, "\nOnly ", words_of(found), " has the name")?;
            say_line(script, sides, found)?;
            say(script, ", and attributes have names of their own.\n")
        }
        None => Ok(()),
    }
}

// What a name declares, in words.
fn words_of(found: Found) -> &'static [u8] {
    declared_words(found.mention.role).as_bytes()
}

// Appends in which line a name is.
pub(crate) fn say_line(
    script: &mut Script,
    sides: &Sides<'_>,
    found: Found,
) -> Result<(), AllocError> {
    say(script, " (line ")?;
    let side = side_of(sides, found.is_host);
    say_number(script, line_of(&side, found.mention))?;
    if found.is_host {
        say(script, " of the host")?;
    }
    say(script, ")")
}

// Appends the names that could be meant: those that are near, or all.
fn say_candidates(script: &mut Script, sides: &Sides<'_>, asked: Wanted) -> Result<(), AllocError> {
    let near = say_near(script, sides, Listing::Suiting(asked))?;
    if near == 0 {
        say_list(
            script,
            sides,
            Listing::Suiting(asked),
            "\nWhat is declared of that sort: ",
        )?;
    }
    if asked == Wanted::Nonterminal || asked == Wanted::Symbol {
        return say_around(
            script,
            "\nWrite the name that is meant, or declare this one:\n\n    nonterminal ",
            sides.name,
            ";\n",
        );
    }
    say(
        script,
        "\nWrite the name that is meant, or declare this one.\n",
    )
}

// Appends what is said of an attribute that occurs elsewhere.
fn say_elsewhere(
    script: &mut Script,
    sides: &Sides<'_>,
    mention: Mention,
) -> Result<(), AllocError> {
    let Some(nonterminal) = nonterminal_of(sides, mention) else {
        return Ok(());
    };
    say_around(script, "\n", sides.name, " doesn't occur on ")?;
    say_name(script, nonterminal)?;
    say_site(script, sides, mention)?;
    say(script, ":\n")?;
    show_own(script, mention)?;
    let count = say_list(
        script,
        sides,
        Listing::PlacesOf(sides.name),
        "\nIt occurs on ",
    )?;
    if count == 0 {
        say(script, "\nIt occurs nowhere.\n")?;
    }
    say_list(
        script,
        sides,
        Listing::AttributesOf(nonterminal),
        "\nWhat occurs there: ",
    )?;
    say_occurs(script, sides, nonterminal)
}

// Appends of which tree an attribute is given or read.
fn say_site(script: &mut Script, sides: &Sides<'_>, mention: Mention) -> Result<(), AllocError> {
    match mention.role {
        Role::Given => say_tree(script, text_before(&sides.own, mention)),
        Role::Read => say_tree(script, text_before(&sides.own, mention)),
        Role::Needed => say(script, ", of which this is the flow type"),
        _ => say_around(
            script,
            ", the left side of ",
            owner_of(&sides.own, mention),
            "",
        ),
    }
}

// Appends of which label a tree is.
fn say_tree(script: &mut Script, label: &[u8]) -> Result<(), AllocError> {
    say_around(script, ", the nonterminal of ", label, "")
}

// Appends the line by which the attribute occurs there, or that the host alone can write it.
fn say_occurs(
    script: &mut Script,
    sides: &Sides<'_>,
    nonterminal: &[u8],
) -> Result<(), AllocError> {
    let is_own = declared_in(&sides.own, sides.name, true).is_some()
        || declared_in(&sides.own, nonterminal, false).is_some();
    if is_own {
        say_around(
            script,
            "\nWhere it is to, write:\n\n    occurs ",
            sides.name,
            " on ",
        )?;
    } else {
        say_around(
            script,
            "\nWhere it is to, only the host can say so:\n\n    occurs ",
            sides.name,
            " on ",
        )?;
    }
    say_around(script, "", nonterminal, ";\n")
}

// Appends what is said of the forwarded tree of a production that doesn't forward.
fn say_no_forward(
    script: &mut Script,
    sides: &Sides<'_>,
    mention: Mention,
) -> Result<(), AllocError> {
    say_around(
        script,
        "\nThe production ",
        owner_of(&sides.own, mention),
        " doesn't forward, so no tree stands for it that has ",
    )?;
    say_around(script, "", sides.name, ":\n")?;
    show_own(script, mention)?;
    say(
        script,
        "\nForward in the production itself, by an equation that begins with  forwards to , or leave\nthis out.\n",
    )
}

// Appends what is said of a label that the production doesn't have.
fn say_no_label(
    script: &mut Script,
    sides: &Sides<'_>,
    mention: Mention,
) -> Result<(), AllocError> {
    let production = owner_of(&sides.own, mention);
    say_around(
        script,
        "\nThe production ",
        production,
        " has no child and no local ",
    )?;
    say_around(script, "", sides.name, ":\n")?;
    show_own(script, mention)?;
    say_near(script, sides, Listing::LabelsOf(production))?;
    let count = say_list(
        script,
        sides,
        Listing::LabelsOf(production),
        "\nIts labels: ",
    )?;
    if count == 0 {
        say(script, "\nIt has none at all.\n")?;
    }
    match declared(sides, sides.name, true) {
        Some(found) => say_attribute_hint(script, sides, found),
        None => Ok(()),
    }
}

// Appends how an attribute of the name is read.
fn say_attribute_hint(
    script: &mut Script,
    sides: &Sides<'_>,
    found: Found,
) -> Result<(), AllocError> {
    if !is_attribute(found.mention.role) {
        return Ok(());
    }
    if found.mention.role == Role::Inherited {
        return say_around(
            script,
            "\nThe inherited attribute of the name is read by top.",
            sides.name,
            " .\n",
        );
    }
    say_around(
        script,
        "\nThe synthesized attribute of the name is read of a child or local, as by a.",
        sides.name,
        " of a.\n",
    )
}
