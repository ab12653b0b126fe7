//! What does an extension lend?

ghost use Rattle.std.specs.Prelude.{◌≡◌, ◌<◌, ◌≤◌, ◌+◌, ◌-◌, Some, length, slice_get};
ghost use Rattle.wb_compose_language.specs.Inner.Layouts.{hosts_in};

use wb_base::Grammar;
use wb_syntax_resolved::{Preference, Terminal};

/// An extension with its host, by numbers, as it was certified.
///
/// The grammar is that of host and extension, and so are terminals and preferences: the host's numbers stay, and after the grammar's
/// terminals comes the host's layout, and then the extension's own.
#[derive(Clone, Copy)]
pub struct Addition<'a> {
    pub grammar: &'a Grammar,
    pub terminals: &'a [Terminal],
    pub preferences: &'a [Preference],
    /// The name of the extension.
    pub name: &'a [u8],
}

/// A host with extensions that are certified with it alone, each by numbers.
///
/// Terminals and preferences are those of the host, with layout after the grammar's terminals.
#[derive(Clone, Copy)]
pub struct Lent<'a> {
    pub grammar: &'a Grammar,
    pub extensible: &'a [usize],
    pub terminals: &'a [Terminal],
    pub preferences: &'a [Preference],
    pub extensions: &'a [Addition<'a>],
}

// The row of this number.
pub(crate) fn row_of<'a>(extension: &'a Addition, number: usize) -> &'a Terminal
    requires { number < length extension.now.terminals.now }
    ensures { slice_get extension.now.terminals.now number ≡ Some result.now }
{
    &extension.terminals[number]
}

// How many layouts the host has.
pub(crate) fn host_layouts(lent: &Lent) -> usize
    requires { lent.now.grammar.now.terminals ≤ length lent.now.terminals.now }
    ensures { result ≡ hosts_in lent.now }
{
    lent.terminals.len() - lent.grammar.terminals()
}

// Where an extension's own layout begins among its rows, where the host has so many layouts.
pub(crate) fn own_from(extension: &Addition, hosts: usize) -> usize
    requires { extension.now.grammar.now.terminals + hosts ≤ length extension.now.terminals.now }
    ensures { result ≡ extension.now.grammar.now.terminals + hosts }
{
    extension.grammar.terminals() + hosts
}

// How many layouts of its own it has.
pub(crate) fn own_layouts(extension: &Addition, hosts: usize) -> usize
    requires { extension.now.grammar.now.terminals + hosts ≤ length extension.now.terminals.now }
    ensures { result ≡ length extension.now.terminals.now - (extension.now.grammar.now.terminals + hosts) }
{
    extension.terminals.len() - own_from(extension, hosts)
}
