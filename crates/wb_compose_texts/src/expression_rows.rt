//! Lists the expressions of the terminals between two numbers.

ghost use Rattle.std.specs.Prelude.{◌≤◌, None, Some, OnOk, length};
ghost use Rattle.wb_compose_texts.specs.Expressions.{rows_of};
ghost use Rattle.wb_compose_texts.specs.Inner.Added.{AreAdded};

use crate::written::written_by;
use std::alloc::{AllocError, Global};
use wb_base::push;
use wb_regex::Regex;
use wb_syntax_resolved::Terminal;

// Adds those of the host.
pub(crate) fn add_own(
    expressions: &mut Vec<Regex>,
    rows: &[Terminal],
    from: usize,
    to: usize,
) -> Result<(), AllocError>
    requires { to ≤ length rows.now }
    ensures { OnOk result (AreAdded (rows_of None from to rows.now) expressions.old.items expressions.new.items) }
{
    'rows: for number in from..to {
        let made = rows[number].pattern.copy()?;
        push(expressions, made)?;
    }
    Ok(())
}

// Adds those of the extension of this name.
pub(crate) fn add_named(
    alloc: Global,
    expressions: &mut Vec<Regex>,
    name: &[u8],
    rows: &[Terminal],
    from: usize,
    to: usize,
) -> Result<(), AllocError>
    requires { to ≤ length rows.now }
    ensures { OnOk result (AreAdded (rows_of (Some name.now) from to rows.now) expressions.old.items expressions.new.items) }
{
    'rows: for number in from..to {
        let made = written_by(alloc, name, &rows[number])?;
        push(expressions, made)?;
    }
    Ok(())
}
