//! Where is an equation, and which vertex is an attribute of a child or local?

ghost use Rattle.std.specs.Prelude.{◌≡◌};
ghost use Rattle.wb_flow.specs.Rules.{attribute_at};

use wb_flow::Vertex;
use wb_syntax_resolved::Place;

/// Where an equation is: whose it is, and the place of its first token in that owner's file.
#[derive(Clone, Copy)]
pub struct Rule {
    /// The number of its owner.
    pub owner: usize,
    /// The place of its first token.
    pub offset: usize,
}

/// An attribute of a child or local.
pub fn below(place: Place, attribute: usize) -> Vertex
    ensures { result ≡ attribute_at place attribute }
{
    match place {
        Place::Child(child) => Vertex::Child(child, attribute),
        Place::Local(local) => Vertex::Local(local, attribute),
    }
}
