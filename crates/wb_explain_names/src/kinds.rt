//! What is said of a name that is of another kind than its place asks for?

use crate::unknown::say_line;
use std::alloc::AllocError;
use wb_explain_names_roles::declared::{declared, forward_count, kind_name, label_of};
use wb_explain_names_roles::mention::{Mention, after};
use wb_explain_names_roles::role::{
    Role, Wanted, declared_words, is_label_use, suits, wanted_by, wanted_words, wants_attribute,
};
use wb_explain_names_roles::script::{Script, say, say_around, show_own};
use wb_explain_names_roles::side::{Found, Sides, name_of, owner_of};
use wb_text_tokens::{TokenKind, Word};

// The most uses of a name that are looked at.
const MOST: usize = 300;

// Appends what is said of such a name.
pub(crate) fn say_kinds(script: &mut Script, sides: &Sides<'_>) -> Result<(), AllocError> {
    let mut seen: usize = 0;
    'mentions: for mention in sides.own.mentions {
        if seen < MOST && name_of(&sides.own, *mention) == sides.name {
            seen = seen.saturating_add(1);
            if say_if_wrong(script, sides, *mention)? {
                return Ok(());
            }
        }
    }
    Ok(())
}

// Appends what is said of a name where it is of a wrong kind, and answers whether it is.
fn say_if_wrong(
    script: &mut Script,
    sides: &Sides<'_>,
    mention: Mention,
) -> Result<bool, AllocError> {
    if let Some(words) = misplaced(sides, mention) {
        say(script, words)?;
        show_own(script, mention)?;
        return Ok(true);
    }
    if is_label_use(mention.role) {
        return say_if_label(script, sides, mention);
    }
    let asked = wanted_by(mention.role, mention.item);
    if asked == Wanted::Nothing {
        return Ok(false);
    }
    match declared(sides, sides.name, wants_attribute(asked)) {
        Some(found) => say_unless(script, sides, mention, found),
        None => Ok(false),
    }
}

// What is said of a name that has no place there at all.
fn misplaced(sides: &Sides<'_>, mention: Mention) -> Option<&'static str> {
    match mention.role {
        Role::Extension => only_if(
            !sides.has_host,
            "\nThis file is an extension, and a host is wanted. The host's file comes first, and those of\nextensions after it:\n",
        ),
        Role::Host => only_if(
            sides.has_host,
            "\nThis file is a host, and an extension is wanted. The host's file comes first, and those of\nextensions after it:\n",
        ),
        Role::Marking => only_if(
            !sides.has_host,
            "\nA host has no markers; write  terminal  in the place of  marking :\n",
        ),
        Role::Aspect => only_if(
            forward_count(&sides.own, mention) > 0,
            "\nTo what a production forwards is said in the production itself, and not in an aspect of it:\n",
        ),
        Role::ChildLabel => only_if(
            is_plain_child(sides, mention),
            "\nThe children of a concrete production are terminals, markers and nonterminals, since a text\nhas no other parts. This one is of kind int, bool or text; it could be in an abstract production:\n",
        ),
        _ => None,
    }
}

// The words, where it is so.
fn only_if(is_so: bool, words: &'static str) -> Option<&'static str> {
    if is_so { Some(words) } else { None }
}

// Whether this labels a child of kind int, bool or text of a concrete production.
fn is_plain_child(sides: &Sides<'_>, mention: Mention) -> bool {
    mention.item == Word::Concrete && after(sides.own.tokens, mention.token, 2) != TokenKind::Name
}

// Appends what is said of a name that is declared so, unless that may be there, and answers whether it may not.
fn say_unless(
    script: &mut Script,
    sides: &Sides<'_>,
    mention: Mention,
    found: Found,
) -> Result<bool, AllocError> {
    let asked = wanted_in(sides, mention);
    if suits(asked, found.mention.role) {
        return Ok(false);
    }
    let is = declared_words(found.mention.role).as_bytes();
    say_around(script, "\n", sides.name, " is ")?;
    say_around(script, "", is, "")?;
    say_line(script, sides, found)?;
    say_around(
        script,
        ", and here ",
        wanted_words(asked).as_bytes(),
        " is wanted:\n",
    )?;
    show_own(script, mention)?;
    say(script, advice(mention.role, found.mention.role))?;
    Ok(true)
}

// What the place of a name asks for; a synthesized attribute where a flow type comes after the occurrence.
fn wanted_in(sides: &Sides<'_>, mention: Mention) -> Wanted {
    if mention.role == Role::Occurring
        && after(sides.own.tokens, mention.token, 3) == TokenKind::Word(Word::Needs)
    {
        return Wanted::Synthesized;
    }
    wanted_by(mention.role, mention.item)
}

// What mends it, by the role of the name there and that in which it is declared.
fn advice(role: Role, is: Role) -> &'static str {
    match role {
        Role::Given => {
            "\nA production gives inherited attributes to its children and locals. A synthesized one is\ngiven by the production of the child itself, by  top. . Leave the equation out, or declare the\nattribute by  inh .\n"
        }
        Role::GivenForward => {
            "\nA production gives inherited attributes to the tree that stands for it. Leave the equation\nout, or declare the attribute by  inh .\n"
        }
        Role::GivenTop => {
            "\nA production gives synthesized attributes to its own left side. An inherited one is given to\nit from above. Leave the equation out, or declare the attribute by  syn .\n"
        }
        Role::Read => {
            "\nOf a child or local synthesized attributes are read. An inherited one is given to it, and the\none of the left side is read by  top. .\n"
        }
        Role::ReadForward => {
            "\nOf the tree that stands for the production synthesized attributes are read.\n"
        }
        Role::ReadTop => {
            "\nOf the left side inherited attributes are read. A synthesized one is what the production\ncomputes; of a child or local it is read by its label.\n"
        }
        Role::Needed => {
            "\nA flow type names the inherited attributes that may be read. Leave this one out.\n"
        }
        Role::Occurring => "\nOnly a synthesized attribute has a flow type. Leave  needs  out.\n",
        _ => symbol_advice(is),
    }
}

// What mends it where something else than an attribute is wanted.
fn symbol_advice(is: Role) -> &'static str {
    if is == Role::Terminal {
        return "\nA terminal is a word of a text, and has no attributes and no productions. Write another name,\nor declare this one as what is wanted.\n";
    }
    "\nWrite another name, or declare this one as what is wanted.\n"
}

// Appends what is said of a label that isn't of the kind that is wanted, and answers whether it isn't.
fn say_if_label(
    script: &mut Script,
    sides: &Sides<'_>,
    mention: Mention,
) -> Result<bool, AllocError> {
    let production = owner_of(&sides.own, mention);
    let Some(label) = label_of(sides, production, sides.name) else {
        return Ok(false);
    };
    let is_word = is_role_of(sides, label, Role::Terminal, Role::Marking);
    match mention.role {
        Role::Value => {
            if is_word {
                say_word(script, sides, mention, label)?;
            }
            Ok(is_word)
        }
        Role::LexemeLabel => {
            let is_wrong = !is_word || label.mention.role == Role::LocalLabel;
            if is_wrong {
                say_no_word(script, sides, mention, label)?;
            }
            Ok(is_wrong)
        }
        _ => {
            let is_wrong = !is_role_of(sides, label, Role::Nonterminal, Role::Nonterminal);
            if is_wrong {
                say_no_tree(script, sides, mention, label)?;
            }
            Ok(is_wrong)
        }
    }
}

// Whether what a label is of has one of two roles.
fn is_role_of(sides: &Sides<'_>, label: Found, first: Role, second: Role) -> bool {
    match kind_name(sides, label) {
        Some(name) => match declared(sides, name, false) {
            Some(found) => found.mention.role == first || found.mention.role == second,
            None => false,
        },
        None => false,
    }
}

// Appends what a label is of.
fn say_label(
    script: &mut Script,
    sides: &Sides<'_>,
    mention: Mention,
    label: Found,
) -> Result<(), AllocError> {
    say_around(
        script,
        "\nIn the production ",
        owner_of(&sides.own, mention),
        " the label ",
    )?;
    say_around(script, "", sides.name, " is ")?;
    match kind_name(sides, label) {
        Some(name) => match declared(sides, name, false) {
            Some(found) => {
                say_around(script, "of ", name, ", ")?;
                say_around(
                    script,
                    "",
                    declared_words(found.mention.role).as_bytes(),
                    "",
                )?;
                say_line(script, sides, found)
            }
            None => say_around(script, "of ", name, ""),
        },
        None => say(script, "of kind int, bool or text"),
    }
}

// Appends what is said of a word that is used as a value.
fn say_word(
    script: &mut Script,
    sides: &Sides<'_>,
    mention: Mention,
    label: Found,
) -> Result<(), AllocError> {
    say_label(script, sides, mention, label)?;
    say(
        script,
        ".\nA word is no value by itself; its text is one:\n",
    )?;
    show_own(script, mention)?;
    say_around(script, "\nWrite:\n\n    ", sides.name, ".lexeme\n")
}

// Appends what is said of something whose text is read, and which is no word.
fn say_no_word(
    script: &mut Script,
    sides: &Sides<'_>,
    mention: Mention,
    label: Found,
) -> Result<(), AllocError> {
    say_label(script, sides, mention, label)?;
    say(
        script,
        ",\nand only a terminal has a text that  .lexeme  reads:\n",
    )?;
    show_own(script, mention)?;
    say_around(
        script,
        "\nWrite  ",
        sides.name,
        "  alone where it is of kind text, and the name of an attribute after the dot where it is a tree.\n",
    )
}

// Appends what is said of something that has attributes there, and is no tree.
fn say_no_tree(
    script: &mut Script,
    sides: &Sides<'_>,
    mention: Mention,
    label: Found,
) -> Result<(), AllocError> {
    say_label(script, sides, mention, label)?;
    say(script, ",\nand only a tree has attributes:\n")?;
    show_own(script, mention)?;
    match kind_name(sides, label) {
        Some(_) => say_around(
            script,
            "\nThe text of a word is  ",
            sides.name,
            ".lexeme .\n",
        ),
        None => say_around(script, "\nThe value of it is  ", sides.name, "  alone.\n"),
    }
}
