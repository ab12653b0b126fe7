//! Which number does a declared name have?
//!
//! Names are kept in the order of their numbers, all in sight of the owner of the file. Whether a name is there is tested by its rules.

ghost use Rattle.std.specs.Prelude.{◌≡◌, ℕ, List, Some, Contains, slice_get};
ghost use Rattle.wb_names_rows.specs.Scope.{IsLabelOf};

use crate::index::Index;
use wb_syntax_resolved::Place;

/// The names by number, and whose the file is.
#[derive(Drop)]
pub struct Scope {
    pub owner: usize,
    pub terminals: Index,
    pub nonterminals: Index,
    pub attributes: Index,
    pub productions: Index,
}

/// The labels of a production: those of its children, so many, and then those of its locals.
#[derive(Drop)]
pub struct ProductionLabels {
    pub names: Index,
    pub children: usize,
}

/// The number of a name that is there.
pub fn number_of(names: &Index, name: &[u8]) -> usize
    requires { Contains names.now name.now }
    ensures { slice_get names.now result ≡ Some name.now }
{
    match names.find(name) {
        Some(number) => number,
        None => 0,
    }
}

// The place of a label that is there.
pub(crate) fn place_of(labels: &ProductionLabels, label: &[u8]) -> Place
    requires { Contains labels.now.names label.now }
    ensures { IsLabelOf labels.now label.now result }
{
    let number = number_of(&labels.names, label);
    if number < labels.children {
        Place::Child(number)
    } else {
        Place::Local(number - labels.children)
    }
}
