//! Which inherited attributes does a production not hand down, though something that it reads needs them?
//!
//! Each is found by a read, and listed once, as an aspect to paste.

ghost use Rattle.std.specs.Prelude.{◌≡◌, ◌⊎◌, ◌++◌, ◌∷◌, [], Contains, IfOk, IfSome, OnOk, Some, None, true};
ghost use Rattle.wb_base.specs.declared.symbol.Kind.TheVariants.{Tree};
ghost use Rattle.wb_flow.specs.Occurrences.{IsIndexOf};
ghost use Rattle.wb_flow_theory.specs.Modular.{IsProduction};
ghost use Rattle.wb_flow_theory.specs.Rules.{IsTreeAt};
ghost use Rattle.wb_syntax_resolved.specs.Attribution.{IsAttribution};
ghost use Rattle.wb_syntax_resolved.specs.declared.production.ChildKind.TheVariants.{Value};
ghost use Rattle.wb_explain_flows_lists.specs.Handed.{AreLacking, HasReadAt, IsHandedText, IsRuleAt, SaysHanded, handed_text};
ghost use Rattle.wb_explain_flows_lists.specs.Inner.Spots.{IsNodeAt, IsSpot, KeepsLacking};
ghost use Rattle.wb_explain_flows_lists.specs.Lists.{HasText};

use crate::files::{line_number, text_of};
use crate::lists::{Listed, push_found};
use crate::missing::push_kind;
use crate::names::{own_production, push_own_vertex, push_vertex};
use crate::rule::{Rule, below};
use crate::told::Told;
use crate::writing::{push_number, push_text};
use std::alloc::{AllocError, Global};
use wb_base::{Kind, push};
use wb_flow::{Scope, Vertex, VertexSet, defined_vertices};
use wb_syntax_resolved::{AttributionParts, ChildKind, Node, Place, Production};

// That a production doesn't hand down an inherited attribute, what it reads that needs it, and where.
#[derive(Clone, Copy)]
pub(crate) struct Lacking {
    pub(crate) production: usize,
    pub(crate) vertex: Vertex,
    pub(crate) reader: Vertex,
    pub(crate) at: Rule,
}

impl Listed for Lacking {
    ghost IsText = { IsHandedText };

    fn push(&self, alloc: Global, out: &mut Vec<u8>, told: &Told<'_>) -> Result<(), AllocError> {
        push_one(alloc, out, told, *self)
    }
}

// What comes before them.
static HEADING: &str =
    "\nEvery attribute that has to be handed down and isn't, to paste, with an expression\nin the place of the dots. After it come its kind and what is read that needs it.\n\n";

// A production, and for what it has equations.
#[derive(Clone, Copy)]
pub(crate) struct Spot<'a> {
    scope: &'a Scope<'a>,
    number: usize,
    production: &'a Production,
    defined: &'a VertexSet,
}

/// Appends every inherited attribute that isn't handed down though it is needed, as an aspect to paste.
pub fn push_handed(alloc: Global, out: &mut Vec<u8>, told: &Told<'_>) -> Result<(), AllocError>
    requires attribution { IsAttribution told.now.scope.now.attributes.now }
    requires index { IsIndexOf told.now.scope.now.attributes.now.occurrences told.now.scope.now.index.now }
    ensures { OnOk result ((out.new.items ≡ out.old.items) ⊎ SaysHanded told.now.scope.now.attributes.now out.old.items out.new.items) }
{
    let found = all_lacking(alloc, told.scope)?;
    let answer = push_found(alloc, out, told, HEADING, &found);
    drop(found);
    answer
}

// All of them.
fn all_lacking(alloc: Global, scope: &Scope) -> Result<Vec<Lacking>, AllocError>
    requires attribution { IsAttribution scope.now.attributes.now }
    requires index { IsIndexOf scope.now.attributes.now.occurrences scope.now.index.now }
    ensures { IfOk result (λ found. AreLacking scope.now.attributes.now found.items) }
{
    let mut found = Vec::new(alloc);
    match add_all(alloc, &mut found, scope) {
        Ok(()) => Ok(found),
        Err(error) => {
            drop(found);
            Err(error)
        }
    }
}

// Adds all of them.
fn add_all(alloc: Global, found: &mut Vec<Lacking>, scope: &Scope) -> Result<(), AllocError>
    requires attribution { IsAttribution scope.now.attributes.now }
    requires index { IsIndexOf scope.now.attributes.now.occurrences scope.now.index.now }
    ensures { OnOk result (KeepsLacking scope.now.attributes.now found.old.items found.new.items) }
{
    let productions = scope.attributes.productions.as_slice();
    'productions: for number in 0..productions.len() {
        add_of(alloc, found, scope, number, &productions[number])?;
    }
    Ok(())
}

// Adds those of a production.
fn add_of(
    alloc: Global,
    found: &mut Vec<Lacking>,
    scope: &Scope,
    number: usize,
    production: &Production,
) -> Result<(), AllocError>
    requires attribution { IsAttribution scope.now.attributes.now }
    requires index { IsIndexOf scope.now.attributes.now.occurrences scope.now.index.now }
    requires there { IsProduction scope.now.attributes.now number production.now }
    ensures { OnOk result (KeepsLacking scope.now.attributes.now found.old.items found.new.items) }
{
    let defined = defined_vertices(alloc, production)?;
    let spot = Spot {
        scope,
        number,
        production,
        defined: &defined,
    };
    let answer = add_rules(found, &spot);
    drop(defined);
    answer
}

// Adds those that its expressions need.
fn add_rules(found: &mut Vec<Lacking>, spot: &Spot<'_>) -> Result<(), AllocError>
    requires { IsSpot spot.now }
    ensures { OnOk result (KeepsLacking spot.now.scope.now.attributes.now found.old.items found.new.items) }
{
    add_equations(found, spot)?;
    add_locals(found, spot)?;
    add_forward(found, spot)
}

// Adds those that its equations need.
fn add_equations(found: &mut Vec<Lacking>, spot: &Spot<'_>) -> Result<(), AllocError>
    requires { IsSpot spot.now }
    ensures { OnOk result (KeepsLacking spot.now.scope.now.attributes.now found.old.items found.new.items) }
{
    'equations: for equation in spot.production.equations.as_slice() {
        let at = Rule {
            owner: equation.owner,
            offset: equation.offset,
        };
        add_nodes(found, spot, at, equation.nodes.as_slice())?;
    }
    Ok(())
}

// Adds those that its locals need.
fn add_locals(found: &mut Vec<Lacking>, spot: &Spot<'_>) -> Result<(), AllocError>
    requires { IsSpot spot.now }
    ensures { OnOk result (KeepsLacking spot.now.scope.now.attributes.now found.old.items found.new.items) }
{
    'locals: for local in spot.production.locals.as_slice() {
        let at = Rule {
            owner: local.owner,
            offset: local.offset,
        };
        add_nodes(found, spot, at, local.nodes.as_slice())?;
    }
    Ok(())
}

// Adds those that what it forwards to needs.
fn add_forward(found: &mut Vec<Lacking>, spot: &Spot<'_>) -> Result<(), AllocError>
    requires { IsSpot spot.now }
    ensures { OnOk result (KeepsLacking spot.now.scope.now.attributes.now found.old.items found.new.items) }
{
    let Some(forward) = &spot.production.forward else {
        return Ok(());
    };
    let at = Rule {
        owner: spot.production.owner,
        offset: forward.offset,
    };
    add_nodes(found, spot, at, forward.nodes.as_slice())
}

// Adds those that an expression needs.
fn add_nodes(
    found: &mut Vec<Lacking>,
    spot: &Spot<'_>,
    at: Rule,
    nodes: &[Node],
) -> Result<(), AllocError>
    requires spot { IsSpot spot.now }
    requires rule { IsRuleAt spot.now.production.now at nodes.now }
    ensures { OnOk result (KeepsLacking spot.now.scope.now.attributes.now found.old.items found.new.items) }
{
    'nodes: for node in nodes {
        add_node(found, spot, at, node)?;
    }
    Ok(())
}

// Adds those that a node needs.
fn add_node(
    found: &mut Vec<Lacking>,
    spot: &Spot<'_>,
    at: Rule,
    node: &Node,
) -> Result<(), AllocError>
    requires spot { IsSpot spot.now }
    requires rule { IsNodeAt spot.now.production.now at node.now }
    ensures { OnOk result (KeepsLacking spot.now.scope.now.attributes.now found.old.items found.new.items) }
{
    let Node::Read { label, attribute } = node else {
        return Ok(());
    };
    add_read(found, spot, at, *label, *attribute)
}

// Adds those that a read needs.
fn add_read(
    found: &mut Vec<Lacking>,
    spot: &Spot<'_>,
    at: Rule,
    label: Place,
    attribute: usize,
) -> Result<(), AllocError>
    requires spot { IsSpot spot.now }
    requires read { HasReadAt spot.now.production.now at label attribute }
    ensures { OnOk result (KeepsLacking spot.now.scope.now.attributes.now found.old.items found.new.items) }
{
    let Some(nonterminal) = nonterminal_at(spot.production, label) else {
        return Ok(());
    };
    let reader = below(label, attribute);
    'inherited: for &inherited in spot.scope.needs(attribute, nonterminal) {
        let one = Lacking {
            production: spot.number,
            vertex: below(label, inherited),
            reader,
            at,
        };
        add_one(found, spot.defined, one)?;
    }
    Ok(())
}

// Adds one, where no equation is for it and it isn't there yet.
fn add_one(found: &mut Vec<Lacking>, defined: &VertexSet, one: Lacking) -> Result<(), AllocError>
    ensures { OnOk result ((found.new.items ≡ found.old.items) ⊎ ((found.new.items ≡ found.old.items ++ one ∷ []) × ¬ Contains defined.now one.vertex)) }
{
    if defined.contains(one.vertex) {
        return Ok(());
    }
    if is_listed(found, one) {
        return Ok(());
    }
    push(found, one)
}

// Whether the attribute is there already.
fn is_listed(found: &[Lacking], one: Lacking) -> bool {
    'found: for other in found {
        if other.production == one.production && other.vertex == one.vertex {
            return true;
        }
    }
    false
}

// The nonterminal of the tree at a child or local, where there is one.
fn nonterminal_at(production: &Production, at: Place) -> Option<usize>
    ensures { IfSome result (IsTreeAt production.now at) }
{
    match at {
        Place::Child(number) => {
            let children = production.children.as_slice();
            if number < children.len() {
                tree_kind(children[number].kind)
            } else {
                None
            }
        }
        Place::Local(number) => {
            let locals = production.locals.as_slice();
            if number < locals.len() {
                Some(locals[number].nonterminal)
            } else {
                None
            }
        }
    }
}

// The nonterminal of a child that is a tree.
fn tree_kind(kind: ChildKind) -> Option<usize>
    ensures { IfSome result (λ m. kind ≡ Value (Tree m)) }
{
    let ChildKind::Value(value) = kind else {
        return None;
    };
    let Kind::Tree(nonterminal) = value else {
        return None;
    };
    Some(nonterminal)
}

// Appends an aspect.
fn push_one(
    alloc: Global,
    out: &mut Vec<u8>,
    told: &Told<'_>,
    one: Lacking,
) -> Result<(), AllocError>
    ensures { OnOk result (HasText (IsHandedText told.now.scope.now.attributes.now one) out.old.items out.new.items) }
{
    let more = after(alloc, told, one)?;
    let answer = push_parts(out, told.scope.attributes, one, &more);
    drop(more);
    answer
}

// Appends an aspect, and what comes after it.
fn push_parts(
    out: &mut Vec<u8>,
    parts: &AttributionParts,
    one: Lacking,
    more: &[u8],
) -> Result<(), AllocError>
    ensures { OnOk result (out.new.items ≡ out.old.items ++ (handed_text parts.now one ++ more.now)) }
{
    out.extend_from_slice(b"    aspect ")?;
    out.extend_from_slice(own_production(parts, one.production))?;
    out.extend_from_slice(b" { ")?;
    push_own_vertex(out, parts, one.production, one.vertex)?;
    out.extend_from_slice(b" = ..; }")?;
    out.extend_from_slice(more)
}

// What comes after an aspect on its line.
fn after(alloc: Global, told: &Told<'_>, one: Lacking) -> Result<Vec<u8>, AllocError> {
    let mut more = Vec::new(alloc);
    match push_after(&mut more, told, one) {
        Ok(()) => Ok(more),
        Err(error) => {
            drop(more);
            Err(error)
        }
    }
}

// Appends the kind of an attribute, and what is read that needs it.
fn push_after(out: &mut Vec<u8>, told: &Told<'_>, one: Lacking) -> Result<(), AllocError> {
    let parts = told.scope.attributes;
    push_text(out, "  // ")?;
    if let Some(attribute) = attribute_of(one.vertex) {
        push_kind(out, parts, attribute)?;
    }
    push_text(out, ", for ")?;
    if let Some(production) = parts.productions.as_slice().get(one.production) {
        push_vertex(out, parts, production, one.reader)?;
    }
    push_text(out, " in line ")?;
    push_number(
        out,
        line_number(text_of(told.source, one.at.owner), one.at.offset),
    )?;
    push_text(out, "\n")
}

// The attribute of a child or local.
fn attribute_of(vertex: Vertex) -> Option<usize> {
    match vertex {
        Vertex::Child(_, attribute) => Some(attribute),
        Vertex::Local(_, attribute) => Some(attribute),
        _ => None,
    }
}
