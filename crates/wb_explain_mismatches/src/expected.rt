//! Which expression has its equation at an offset of a file, and of which kind has it to be?

ghost use Rattle.std.specs.Prelude.{Some, IfSome};
ghost use Rattle.wb_base.specs.declared.symbol.Kind.{Kind};
ghost use Rattle.wb_types.specs.Expected.{attribute_of};
ghost use Rattle.wb_types.specs.Kinds.{IsAttributeKind};
ghost use Rattle.wb_explain_mismatches.specs.Inner.Found.{IsExpectedAt, IsExpectedIn};

use crate::kinds::attribute_kind;
use wb_base::Kind;
use wb_syntax_resolved::{AttributionParts, Equation, Forward, Local, Node, Production, Target};

// An expression: its production, its nodes, the kind that it has to be of, and the offset of its equation.
#[derive(Clone, Copy)]
pub(crate) struct Expected<'a> {
    pub(crate) production: &'a Production,
    pub(crate) nodes: &'a [Node],
    pub(crate) kind: Kind,
    pub(crate) offset: usize,
}

// The place of an equation: the owner of its file, and its offset there.
#[derive(Clone, Copy)]
pub(crate) struct Spot {
    pub(crate) owner: usize,
    pub(crate) offset: usize,
}

// The expression whose equation is at this place.
pub(crate) fn expected_at(attributes: &AttributionParts, spot: Spot) -> Option<Expected<'_>>
    ensures { IfSome result (IsExpectedAt attributes.now spot.offset) }
{
    'productions: for production in attributes.productions.as_slice() {
        if let Some(found) = expected_in(attributes, production, spot) {
            return Some(found);
        }
    }
    None
}

// The one in this production.
fn expected_in<'a>(
    attributes: &AttributionParts,
    production: &'a Production,
    spot: Spot,
) -> Option<Expected<'a>>
    ensures { IfSome result (IsExpectedIn attributes.now production.now spot.offset) }
{
    match equation_in(attributes, production, spot) {
        Some(found) => Some(found),
        None => tree_in(attributes, production, spot),
    }
}

// That of an equation for an attribute.
fn equation_in<'a>(
    attributes: &AttributionParts,
    production: &'a Production,
    spot: Spot,
) -> Option<Expected<'a>>
    ensures { IfSome result (IsExpectedIn attributes.now production.now spot.offset) }
{
    'equations: for equation in production.equations.as_slice() {
        if equation.owner == spot.owner && equation.offset == spot.offset {
            if let Some(kind) = target_kind(attributes, equation.target) {
                return Some(Expected {
                    production,
                    nodes: equation.nodes.as_slice(),
                    kind,
                    offset: spot.offset,
                });
            }
        }
    }
    None
}

// The kind of the attribute that an equation is for.
fn target_kind(attributes: &AttributionParts, target: Target) -> Option<Kind>
    ensures { IfSome result (IsAttributeKind attributes.now (attribute_of target)) }
{
    match target {
        Target::Top(attribute) => attribute_kind(attributes, attribute),
        Target::Place { attribute, .. } => attribute_kind(attributes, attribute),
        Target::Forward(attribute) => attribute_kind(attributes, attribute),
    }
}

// That of a local, or of what the production forwards to.
fn tree_in<'a>(
    attributes: &AttributionParts,
    production: &'a Production,
    spot: Spot,
) -> Option<Expected<'a>>
    ensures { IfSome result (IsExpectedIn attributes.now production.now spot.offset) }
{
    'locals: for local in production.locals.as_slice() {
        if local.owner == spot.owner && local.offset == spot.offset {
            return Some(Expected {
                production,
                nodes: local.nodes.as_slice(),
                kind: Kind::Tree(local.nonterminal),
                offset: spot.offset,
            });
        }
    }
    forward_in(attributes, production, spot)
}

// That of what the production forwards to.
fn forward_in<'a>(
    attributes: &AttributionParts,
    production: &'a Production,
    spot: Spot,
) -> Option<Expected<'a>>
    ensures { IfSome result (IsExpectedIn attributes.now production.now spot.offset) }
{
    let Some(forward) = &production.forward else {
        return None;
    };
    if production.owner != spot.owner || forward.offset != spot.offset {
        return None;
    }
    Some(Expected {
        production,
        nodes: forward.nodes.as_slice(),
        kind: Kind::Tree(production.left),
        offset: spot.offset,
    })
}
