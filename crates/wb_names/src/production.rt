//! Builds the row of one production of a base or of a file.
//!
//! Its children and its locals give it labels, and then all that the file writes on it is numbered. Which items write on it is in
//! `wb_names_symbols`.

ghost use Rattle.std.specs.Prelude.{◌∷◌, [], All, Contains, IfOk, OnOk, option_to_list};
ghost use Rattle.std.specs.List.{AllZip};
ghost use Rattle.wb_names_theory.specs.Declarations.{productions};
ghost use Rattle.wb_names_numbers_theory.specs.Files.{equations_on};
ghost use Rattle.wb_names_rows.specs.Moves.{IsChildNow, IsForwardNow, NodeIsWithin};
ghost use Rattle.wb_names.specs.Inner.Bodies.{IsContext, IsExtendedBody, IsMovedHead, IsWritten, KnowsLabels, file_of, labels_with};
ghost use Rattle.wb_names.specs.Inner.Now.{IsDeclaredNow, IsExtendedNow};
ghost use Rattle.wb_names.specs.Inner.Rows.{AddsProductions, declares_concrete, has_concrete};

use crate::productions::{Productions, add};
use std::alloc::{AllocError, Global};
use wb_names_rows::body::{Body, add_all, labels_of};
use wb_names_rows::child::written_children;
use wb_names_rows::moves::{Moves, moved_children, moved_equations, moved_forward, moved_locals};
use wb_names_rows::row::Head;
use wb_names_rows::scope::{Scope, number_of};
use wb_names_symbols::lent::Lent;
use wb_names_symbols::names::numbered_role;
use wb_names_symbols::writers::Writers;
use wb_syntax_resolved::{Child, Forward, Production};

// A file with what its names stand for, and with the items that write on each production.
#[derive(Clone, Copy)]
pub(crate) struct Context<'a> {
    pub(crate) file: Lent<'a>,
    pub(crate) scope: &'a Scope,
    pub(crate) moves: &'a Moves,
    pub(crate) writers: &'a Writers,
}

// Adds the row of a base's production.
pub(crate) fn add_extended(
    alloc: Global,
    context: &Context,
    production: &Production,
    made: &mut Productions,
) -> Result<(), AllocError>
    requires context { IsContext context.now }
    requires there { Contains context.now.file.base.now.attributes.productions production.now }
    ensures { OnOk result (AddsProductions has_concrete (IsExtendedNow (file_of context.now) context.now.scope.now context.now.moves.now) (production.now ∷ []) made.old made.new) }
{
    let head = moved_head(alloc, context, production)?;
    match extended_body(alloc, context, production, head.children.as_slice()) {
        Ok(body) => add(head, body, made),
        Err(error) => {
            head.release();
            Err(error)
        }
    }
}

// The head of the row of a base's production.
fn moved_head(alloc: Global, context: &Context, production: &Production) -> Result<Head, AllocError>
    requires context { IsContext context.now }
    requires there { Contains context.now.file.base.now.attributes.productions production.now }
    ensures { IfOk result (IsMovedHead context.now.moves.now production.now) }
{
    let name = production.name.copy()?;
    let children = match moved_children(alloc, context.moves, production.children.as_slice()) {
        Ok(children) => children,
        Err(error) => {
            drop(name);
            return Err(error);
        }
    };
    match moved_forwards(alloc, context.moves, &production.forward) {
        Ok(forward) => Ok(Head {
            name,
            owner: production.owner,
            role: production.role,
            left: context.moves.nonterminals[production.left],
            children,
            forward,
        }),
        Err(error) => {
            drop(name);
            drop(children);
            Err(error)
        }
    }
}

// What a production forwards to, where it does.
fn moved_forwards(
    alloc: Global,
    moves: &Moves,
    forward: &Option<Forward>,
) -> Result<Option<Forward>, AllocError>
    requires { All (λ f. All (NodeIsWithin moves.now) f.nodes) (option_to_list forward.now) }
    ensures { IfOk result (λ made. AllZip (IsForwardNow moves.now) (option_to_list forward.now) (option_to_list made)) }
{
    match forward {
        Some(forward) => Ok(Some(moved_forward(alloc, moves, forward)?)),
        None => Ok(None),
    }
}

// What a base's production has, and what the file writes on it.
fn extended_body(
    alloc: Global,
    context: &Context,
    production: &Production,
    children: &[Child],
) -> Result<Body, AllocError>
    requires context { IsContext context.now }
    requires there { Contains context.now.file.base.now.attributes.productions production.now }
    requires children { AllZip (IsChildNow context.now.moves.now) production.now.children children.now }
    ensures { IfOk result (IsExtendedBody (file_of context.now) context.now.scope.now context.now.moves.now production.now children.now) }
{
    let locals = moved_locals(alloc, context.moves, production.locals.as_slice())?;
    let equations = match moved_equations(alloc, context.moves, production.equations.as_slice()) {
        Ok(equations) => equations,
        Err(error) => {
            drop(locals);
            return Err(error);
        }
    };
    let mut body = Body {
        locals,
        forwards: Vec::new(alloc),
        equations,
    };
    match add_written(
        alloc,
        context,
        production.name.as_slice(),
        children,
        &mut body,
    ) {
        Ok(()) => Ok(body),
        Err(error) => {
            body.release();
            Err(error)
        }
    }
}

// Adds what the file writes on the production of this name, which has these children.
fn add_written(
    alloc: Global,
    context: &Context,
    name: &[u8],
    children: &[Child],
    body: &mut Body,
) -> Result<(), AllocError>
    requires context { IsContext context.now }
    requires labels { KnowsLabels (file_of context.now) name.now (labels_with children.now body.old.locals.items (equations_on name.now context.now.file.items.now)) }
    ensures { OnOk result (IsWritten context.now.scope.now children.now (equations_on name.now context.now.file.items.now) body.old body.new) }
{
    let items = context.file.items;
    let places = context.writers.places_of(name);
    let labels = labels_of(alloc, children, &body.locals, items, places)?;
    let added = add_all(alloc, context.scope, &labels, items, places, body);
    labels.names.release();
    added
}

// Adds the row of a production that the file declares.
pub(crate) fn add_own(
    alloc: Global,
    context: &Context,
    role: wb_syntax::ProductionRole,
    production: &wb_syntax::Production,
    made: &mut Productions,
) -> Result<(), AllocError>
    requires context { IsContext context.now }
    requires there { Contains (productions context.now.file.items.now) (record { role = role; production = production.now }) }
    ensures { OnOk result (AddsProductions declares_concrete (IsDeclaredNow (file_of context.now) context.now.scope.now context.now.moves.now) (record { role = role; production = production.now } ∷ []) made.old made.new) }
{
    let name = production.name.copy()?;
    let children = match written_children(alloc, context.scope, production.children.as_slice()) {
        Ok(children) => children,
        Err(error) => {
            drop(name);
            return Err(error);
        }
    };
    let mut body = Body {
        locals: Vec::new(alloc),
        forwards: Vec::new(alloc),
        equations: Vec::new(alloc),
    };
    let own = production.name.as_slice();
    let added = add_written(alloc, context, own, children.as_slice(), &mut body);
    let head = Head {
        name,
        owner: context.file.owner,
        role: numbered_role(role),
        left: number_of(&context.scope.nonterminals, production.left.as_slice()),
        children,
        forward: body.forwards.pop(),
    };
    match added {
        Ok(()) => add(head, body, made),
        Err(error) => {
            head.release();
            body.release();
            Err(error)
        }
    }
}
