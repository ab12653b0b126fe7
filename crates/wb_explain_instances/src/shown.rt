//! What is needed to show attributes that wait?

ghost use Rattle.std.specs.Prelude.{◌≡◌, IfSome, Some, slice_get};
ghost use Rattle.wb_explain_instances.specs.Equations.{IsProductionAt};

use wb_eval::Waiting;
use wb_explain_places::Source;
use wb_syntax_resolved::{AttributionParts, Production};
use wb_values::{TreeId, TreeStore};

/// Attributes that wait, with all by which they are shown.
#[derive(Clone, Copy)]
pub struct Shown<'a> {
    /// The attributes of the language.
    pub attributes: &'a AttributionParts,
    /// The store in which the trees are.
    pub store: &'a TreeStore,
    /// What waits.
    pub waiting: &'a Waiting,
    /// The files of the language: that of the host, and those of the extensions in their order.
    pub files: &'a [Source<'a>],
    /// The leaves of the text whose tree is the root. None of a term.
    pub leaves: Option<Leaves<'a>>,
}

/// The leaves of a text.
#[derive(Clone, Copy)]
pub struct Leaves<'a> {
    /// The text.
    pub text: &'a [u8],
    /// How many leaves each tree of the text has, by its number in the store.
    pub counts: &'a [usize],
    /// The place of each leaf in the text, from left to right.
    pub places: &'a [usize],
}

// The production at a site, where its tree is known.
pub(crate) fn production_at<'a>(shown: &Shown<'a>, site: usize) -> Option<&'a Production>
    ensures { IfSome result (λ p. IsProductionAt shown.now.attributes.now.productions shown.now.store.now shown.now.waiting.now site p.now) }
{
    let tree = tree_of(shown, site)?;
    if tree.0 >= shown.store.len() {
        return None;
    }
    let productions = shown.attributes.productions.as_slice();
    productions.get(shown.store.production(tree))
}

// The tree of a site, where it is known.
pub(crate) fn tree_of(shown: &Shown<'_>, site: usize) -> Option<TreeId>
    ensures { IfSome result (λ id. slice_get shown.now.waiting.now.memo.trees.items site ≡ Some (Some id)) }
{
    let trees = shown.waiting.memo.trees.as_slice();
    if site >= trees.len() {
        return None;
    }
    trees[site]
}
