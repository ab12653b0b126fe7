//! Lists what is scanned of a resolved specification.

ghost use Rattle.std.specs.Prelude.{◌≡◌, ◌<◌, IfOk, length, map, true, false, slice_set};
ghost use Rattle.wb_syntax_resolved.specs.declared.terminal.Preference.{Preference};
ghost use Rattle.wb_syntax_resolved.specs.declared.terminal.Terminal.{Terminal};
ghost use Rattle.wb_determinism_host.specs.Lexicons.{is_layout, is_layout_of};

use std::alloc::{AllocError, Global};
use wb_base::push;
use wb_regex::Regex;
use wb_syntax_resolved::{Preference, Terminal, TerminalKind};
use wb_termset::TermSet;

/// Whose layout is meant?
#[derive(Clone, Copy)]
pub enum LayoutOwner {
    /// Anybody's.
    Any,
    /// The host's.
    Host,
    /// That of an extension.
    Extension,
    /// Nobody's.
    Nobody,
}

/// The expressions of terminals, in their order.
pub fn expressions_of(alloc: Global, terminals: &[Terminal]) -> Result<Vec<Regex>, AllocError>
    ensures { IfOk result (λ made. made.items ≡ map (λ (t : Terminal). t.pattern) terminals.now) }
{
    let mut expressions = Vec::new(alloc);
    'terminals: for terminal in terminals {
        push(&mut expressions, terminal.pattern.copy()?)?;
    }
    Ok(expressions)
}

/// The set of the layout that is meant.
pub fn layout_of(
    alloc: Global,
    terminals: &[Terminal],
    whose: LayoutOwner,
) -> Result<TermSet, AllocError>
    ensures { IfOk result (λ made. made ≡ map (is_layout_of whose) terminals.now) }
{
    let mut layout = TermSet::new(alloc, terminals.len())?;
    'terminals: for number in 0..terminals.len() {
        put_layout(&mut layout, &terminals[number], whose, number);
    }
    Ok(layout)
}

// Adds the number of a terminal that is layout and meant.
fn put_layout(layout: &mut TermSet, terminal: &Terminal, whose: LayoutOwner, number: usize)
    requires { number < length layout.old }
    ensures put { is_layout_of whose terminal.now ≡ true → layout.new ≡ slice_set layout.old number true }
    ensures skipped { is_layout_of whose terminal.now ≡ false → layout.new ≡ layout.old }
{
    if is_layout_of(whose, terminal) {
        layout.insert(number);
    }
}

// Whether a terminal is layout that is meant.
fn is_layout_of(whose: LayoutOwner, terminal: &Terminal) -> bool
    ensures { result ≡ is_layout_of whose terminal.now }
{
    match whose {
        LayoutOwner::Any => is_layout(terminal.kind),
        LayoutOwner::Host => {
            if terminal.owner == 0 {
                is_layout(terminal.kind)
            } else {
                false
            }
        }
        LayoutOwner::Extension => {
            if terminal.owner == 0 {
                false
            } else {
                is_layout(terminal.kind)
            }
        }
        LayoutOwner::Nobody => false,
    }
}

// Whether the kind is that of layout.
fn is_layout(kind: TerminalKind) -> bool
    ensures { result ≡ is_layout kind }
{
    match kind {
        TerminalKind::Plain => false,
        TerminalKind::Ignore => true,
        TerminalKind::Marking => false,
    }
}

/// The preferences as pairs, the preferred terminal first.
pub fn pairs_of(
    alloc: Global,
    preferences: &[Preference],
) -> Result<Vec<(usize, usize)>, AllocError>
    ensures { IfOk result (λ made. made.items ≡ map (λ (p : Preference). (p.first, p.second)) preferences.now) }
{
    let mut pairs = Vec::new(alloc);
    'preferences: for preference in preferences {
        push(&mut pairs, (preference.first, preference.second))?;
    }
    Ok(pairs)
}
