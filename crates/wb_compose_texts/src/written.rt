//! Finds the expression by which a terminal of an extension is written.

ghost use Rattle.std.specs.Prelude.{◌≡◌, IfOk};
ghost use Rattle.wb_regex.specs.Prefixed.{IsPrefixed};
ghost use Rattle.wb_compose_texts.specs.Expressions.{IsWrittenBy, marker_prefix};

use std::alloc::{AllocError, Global};
use wb_base::{Bytes, push};
use wb_regex::Regex;
use wb_syntax_resolved::{Terminal, TerminalKind};

// The expression of a terminal of the extension of this name.
pub(crate) fn written_by(alloc: Global, name: &[u8], row: &Terminal) -> Result<Regex, AllocError>
    ensures { IfOk result (IsWrittenBy name.now row.now) }
{
    match row.kind {
        TerminalKind::Plain => row.pattern.copy(),
        TerminalKind::Ignore => row.pattern.copy(),
        TerminalKind::Marking => prefixed_by(alloc, name, &row.pattern),
    }
}

// The expression after the name and two colons.
fn prefixed_by(alloc: Global, name: &[u8], pattern: &Regex) -> Result<Regex, AllocError>
    ensures { IfOk result (IsPrefixed (marker_prefix name.now) pattern.now) }
{
    let prefix = prefix_of(alloc, name)?;
    pattern.prefixed(prefix.as_slice())
}

// The name and two colons.
fn prefix_of(alloc: Global, name: &[u8]) -> Result<Bytes, AllocError>
    ensures { IfOk result (λ prefix. prefix ≡ marker_prefix name.now) }
{
    let mut prefix = Vec::from_slice(alloc, name)?;
    push(&mut prefix, b':')?;
    push(&mut prefix, b':')?;
    Bytes::from_vec(prefix)
}
