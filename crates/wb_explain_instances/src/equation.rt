//! Which equation is an attribute by, and where is it in its file?

ghost use Rattle.std.specs.Prelude.{◌≡◌, true, IfSome, OnOk};
ghost use Rattle.wb_syntax_resolved.specs.declared.equation.Target.TheVariants as target;
ghost use Rattle.wb_explain_instances.specs.Equations.{IsSpotBelow, IsSpotFor, IsSpotOf, IsSpotOfForward, IsSpotOfLocal, IsSpotOfTree, SaysEquation, target_below};

use crate::Shown;
use crate::position::origin_of;
use crate::shown::production_at;
use crate::writing::push_text;
use std::alloc::AllocError;
use wb_eval::Key;
use wb_eval_memo::Step;
use wb_explain_places::push_place;
use wb_syntax_resolved::{Place, Production, Target};

// Where an equation begins: in the file of which owner, and at which place.
#[derive(Clone, Copy)]
pub(crate) struct Spot {
    pub(crate) owner: usize,
    pub(crate) offset: usize,
}

// Appends this text and the place of the equation by which an attribute is, where there is one.
pub(crate) fn push_equation(
    out: &mut Vec<u8>,
    shown: &Shown<'_>,
    key: Key,
    text: &str,
) -> Result<(), AllocError>
    ensures { OnOk result (SaysEquation shown.now.attributes.now.productions shown.now.store.now shown.now.waiting.now shown.now.files.now key text.now out.old.items out.new.items) }
{
    let Some(spot) = spot_of(shown, key) else {
        return Ok(());
    };
    let Some(file) = shown.files.get(spot.owner) else {
        return Ok(());
    };
    if spot.offset > file.contents.len() {
        return Ok(());
    }
    push_text(out, text)?;
    push_place(out, file.file.as_bytes(), file.contents, spot.offset)
}

// Where the equation of an attribute begins, or that of a tree.
fn spot_of(shown: &Shown<'_>, key: Key) -> Option<Spot>
    ensures { IfSome result (IsSpotOf shown.now.attributes.now.productions shown.now.store.now shown.now.waiting.now key) }
{
    match key {
        Key::Synthesized { site, attribute } => match production_at(shown, site) {
            Some(production) => spot_for(production, Target::Top(attribute)),
            None => spot_of_tree(shown, site),
        },
        Key::Inherited { site, attribute } => spot_below(shown, site, attribute),
        Key::Tree { site } => spot_of_tree(shown, site),
    }
}

// Where the equation of an inherited attribute begins.
fn spot_below(shown: &Shown<'_>, site: usize, attribute: usize) -> Option<Spot>
    ensures { IfSome result (IsSpotBelow shown.now.attributes.now.productions shown.now.store.now shown.now.waiting.now site attribute) }
{
    let origin = origin_of(shown, site)?;
    let production = production_at(shown, origin.parent as usize)?;
    spot_for(production, target_below(origin.step, attribute))
}

// What an equation is for, one step down.
fn target_below(step: Step, attribute: usize) -> Target
    ensures { result ≡ target_below step attribute }
{
    match step {
        Step::Child(child) => Target::Place {
            place: Place::Child(child as usize),
            attribute,
        },
        Step::Local(local) => Target::Place {
            place: Place::Local(local as usize),
            attribute,
        },
        Step::Forward => Target::Forward(attribute),
    }
}

// Where the equation of a production begins that is for this. Where there is none, that by which it forwards.
fn spot_for(production: &Production, wanted: Target) -> Option<Spot>
    ensures { IfSome result (IsSpotFor production.now wanted) }
{
    for equation in production.equations.as_slice() {
        if is_for(equation.target, wanted) {
            return Some(Spot {
                owner: equation.owner,
                offset: equation.offset,
            });
        }
    }
    spot_of_forward(production)
}

// Whether both are one.
fn is_for(target: Target, wanted: Target) -> bool
    ensures { result ≡ true → target ≡ wanted }
{
    match target {
        Target::Top(attribute) => matches!(wanted, Target::Top(other) if other == attribute),
        Target::Forward(attribute) => {
            matches!(wanted, Target::Forward(other) if other == attribute)
        }
        Target::Place { place, attribute } => is_for_place(place, attribute, wanted),
    }
}

// Whether it is for this attribute of this child or local.
fn is_for_place(place: Place, attribute: usize, wanted: Target) -> bool
    ensures { result ≡ true → wanted ≡ target.Place place attribute }
{
    match wanted {
        Target::Place {
            place: other,
            attribute: number,
        } => number == attribute && is_same(place, other),
        _ => false,
    }
}

// Whether both are one child or local.
fn is_same(place: Place, other: Place) -> bool
    ensures { result ≡ true → place ≡ other }
{
    match place {
        Place::Child(child) => matches!(other, Place::Child(number) if number == child),
        Place::Local(local) => matches!(other, Place::Local(number) if number == local),
    }
}

// Where the equation begins that makes the tree of a site.
fn spot_of_tree(shown: &Shown<'_>, site: usize) -> Option<Spot>
    ensures { IfSome result (IsSpotOfTree shown.now.attributes.now.productions shown.now.store.now shown.now.waiting.now site) }
{
    let origin = origin_of(shown, site)?;
    let production = production_at(shown, origin.parent as usize)?;
    match origin.step {
        Step::Local(local) => spot_of_local(production, local as usize),
        Step::Forward => spot_of_forward(production),
        Step::Child(_) => None,
    }
}

// Where the equation of a local begins.
fn spot_of_local(production: &Production, number: usize) -> Option<Spot>
    ensures { IfSome result (IsSpotOfLocal production.now number) }
{
    let local = production.locals.as_slice().get(number)?;
    Some(Spot {
        owner: local.owner,
        offset: local.offset,
    })
}

// Where the equation begins by which a production forwards.
fn spot_of_forward(production: &Production) -> Option<Spot>
    ensures { IfSome result (IsSpotOfForward production.now) }
{
    match &production.forward {
        Some(forward) => Some(Spot {
            owner: production.owner,
            offset: forward.offset,
        }),
        None => None,
    }
}
