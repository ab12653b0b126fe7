//! How is a form of a terminal written down, with its expression?
//!
//! The bare form has the terminal's expression, and the prefixed one that expression after the extension's name and two colons.

ghost use Rattle.std.specs.Prelude.{◌≡◌, ◌<◌, ◌++◌, ◌∷◌, [], IfOk, OnOk, length};
ghost use Rattle.wb_scan_theory.specs.Languages.{bare};
ghost use Rattle.wb_compose_language.specs.Inner.FormsMade.{IsPrefixedAdded, IsPrefixOf};

use std::alloc::{AllocError, Global};
use wb_base::{Bytes, push};
use wb_regex::Regex;
use wb_scan_theory::Form;

// Adds the bare form of a terminal.
pub(crate) fn add_bare(
    forms: &mut Vec<Form>,
    expressions: &mut Vec<Regex>,
    terminal: usize,
    pattern: &Regex,
) -> Result<(), AllocError>
    ensures forms { OnOk result (forms.new.items ≡ forms.old.items ++ bare terminal ∷ []) }
    ensures expressions { OnOk result (expressions.new.items ≡ expressions.old.items ++ pattern.now ∷ []) }
{
    push(expressions, pattern.copy()?)?;
    push(
        forms,
        Form {
            terminal,
            prefix: Bytes::empty(),
        },
    )?;
    Ok(())
}

// Adds the prefixed form of a marker.
pub(crate) fn add_prefixed(
    forms: &mut Vec<Form>,
    expressions: &mut Vec<Regex>,
    terminal: usize,
    prefix: Bytes,
    pattern: &Regex,
) -> Result<(), AllocError>
    requires { 0 < length prefix }
    ensures { OnOk result (IsPrefixedAdded forms.old.items forms.new.items expressions.old.items expressions.new.items terminal prefix pattern.now) }
{
    push(expressions, pattern.prefixed(prefix.as_slice())?)?;
    push(forms, Form { terminal, prefix })?;
    Ok(())
}

// The name of an extension and two colons.
pub(crate) fn prefix_of(alloc: Global, name: &[u8]) -> Result<Bytes, AllocError>
    ensures { IfOk result (IsPrefixOf name.now) }
{
    let mut prefix = Vec::from_slice(alloc, name)?;
    push(&mut prefix, b':')?;
    push(&mut prefix, b':')?;
    Bytes::from_vec(prefix)
}
