//! Lists the expressions of the layouts of a union: the host's, and then those that each extension has of its own.

ghost use Rattle.std.specs.Prelude.{◌≡◌, None, OnOk, length, map};
ghost use Rattle.wb_reading.specs.OrderedNames.{all_of};
ghost use Rattle.wb_certify_shown.specs.Names as shown;
ghost use Rattle.wb_compose_texts.specs.Expressions.{added_layouts, layouts_in, layouts_past, rows_of};
ghost use Rattle.wb_compose_texts.specs.Inner.Added.{AreAdded};
ghost use Rattle.wb_compose_texts.specs.Unions.{all_resolved};

use crate::expression_rows::{add_named, add_own};
use std::alloc::{AllocError, Global};
use wb_certify_shown::terminals_in;
use wb_compose::CertifiedExtension;
use wb_compose_attributes::slices::behind;
use wb_regex::Regex;
use wb_syntax_resolved::Resolved;

// Adds those of the host's layouts.
pub(crate) fn add_layouts(expressions: &mut Vec<Regex>, host: &Resolved) -> Result<(), AllocError>
    ensures { OnOk result (AreAdded (rows_of None (shown.terminals_in host.now.grammar) (length host.now.terminals) host.now.terminals) expressions.old.items expressions.new.items) }
{
    let parts = host.parts();
    let count = terminals_in(&parts.grammar);
    let rows = parts.terminals.as_slice();
    add_own(expressions, rows, count, rows.len())
}

// Adds those of the layouts that each extension has of its own.
pub(crate) fn add_own_layouts(
    alloc: Global,
    expressions: &mut Vec<Regex>,
    host: &Resolved,
    extensions: &[CertifiedExtension],
) -> Result<(), AllocError>
    ensures { OnOk result (AreAdded (all_of (map (added_layouts host.now) (all_resolved extensions.now))) expressions.old.items expressions.new.items) }
{
    let count = layout_count(host);
    'extensions: for extension in extensions {
        add_own_layout(alloc, expressions, count, extension)?;
    }
    Ok(())
}

// Adds those of one, where the host has so many layouts.
fn add_own_layout(
    alloc: Global,
    expressions: &mut Vec<Regex>,
    count: usize,
    extension: &CertifiedExtension,
) -> Result<(), AllocError>
    ensures { OnOk result (AreAdded (layouts_past count extension.now.resolved) expressions.old.items expressions.new.items) }
{
    let name = extension.name();
    let parts = extension.resolved().parts();
    let terminals = terminals_in(&parts.grammar);
    let past = behind(parts.terminals.as_slice(), terminals);
    let rows = behind(past, count);
    add_named(alloc, expressions, name, rows, 0, rows.len())
}

// How many layouts the host has.
fn layout_count(host: &Resolved) -> usize
    ensures { result ≡ layouts_in host.now }
{
    let parts = host.parts();
    let rows = parts.terminals.as_slice();
    rows.len().saturating_sub(terminals_in(&parts.grammar))
}
