//! Lists the expressions by which all terminals and layouts of a union are written.

ghost use Rattle.std.specs.Prelude.{None, IfOk, OnOk, map};
ghost use Rattle.wb_reading.specs.OrderedNames.{all_of};
ghost use Rattle.wb_certify_shown.specs.Names as shown;
ghost use Rattle.wb_compose_texts.specs.Expressions.{AreUnitedExpressions, added_rows, rows_of};
ghost use Rattle.wb_compose_texts.specs.Inner.Added.{AreAdded};
ghost use Rattle.wb_compose_texts.specs.Unions.{all_resolved};

use crate::expression_rows::{add_named, add_own};
use crate::layout_expressions::{add_layouts, add_own_layouts};
use std::alloc::{AllocError, Global};
use wb_certify_shown::terminals_in;
use wb_compose::{CertifiedExtension, CertifiedHost};
use wb_regex::Regex;
use wb_syntax_resolved::Resolved;

/// The expressions of all terminals of the union, by number, then those of the host's layouts, and then those of the layouts that each
/// extension has of its own.
///
/// Each terminal has one: a marker that of its prefixed form, and any other its own. It takes time and memory that are linear in the
/// expressions and, for each marker, in the name of its extension.
pub fn united_expressions(
    alloc: Global,
    host: &CertifiedHost,
    extensions: &[CertifiedExtension],
) -> Result<Vec<Regex>, AllocError>
    ensures { IfOk result (λ made. AreUnitedExpressions host.now.resolved (all_resolved extensions.now) made.items) }
{
    let mut expressions = Vec::new(alloc);
    let host = host.resolved();
    add_terminals(&mut expressions, host)?;
    add_extensions(alloc, &mut expressions, host, extensions)?;
    add_layouts(&mut expressions, host)?;
    add_own_layouts(alloc, &mut expressions, host, extensions)?;
    Ok(expressions)
}

// Adds those of the host's terminals.
fn add_terminals(expressions: &mut Vec<Regex>, host: &Resolved) -> Result<(), AllocError>
    ensures { OnOk result (AreAdded (rows_of None 0 (shown.terminals_in host.now.grammar) host.now.terminals) expressions.old.items expressions.new.items) }
{
    let parts = host.parts();
    let count = terminals_in(&parts.grammar);
    add_own(expressions, parts.terminals.as_slice(), 0, count)
}

// Adds those of the terminals that each extension adds.
fn add_extensions(
    alloc: Global,
    expressions: &mut Vec<Regex>,
    host: &Resolved,
    extensions: &[CertifiedExtension],
) -> Result<(), AllocError>
    ensures { OnOk result (AreAdded (all_of (map (added_rows host.now) (all_resolved extensions.now))) expressions.old.items expressions.new.items) }
{
    'extensions: for extension in extensions {
        add_extension(alloc, expressions, host, extension)?;
    }
    Ok(())
}

// Adds those of one.
fn add_extension(
    alloc: Global,
    expressions: &mut Vec<Regex>,
    host: &Resolved,
    extension: &CertifiedExtension,
) -> Result<(), AllocError>
    ensures { OnOk result (AreAdded (added_rows host.now extension.now.resolved) expressions.old.items expressions.new.items) }
{
    let own = terminals_in(&host.parts().grammar);
    let name = extension.name();
    let parts = extension.resolved().parts();
    let count = terminals_in(&parts.grammar);
    add_named(
        alloc,
        expressions,
        name,
        parts.terminals.as_slice(),
        own,
        count,
    )
}
