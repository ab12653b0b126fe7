//! Builds the bytes by which a declaration is found.
//!
//! Declarations of the same thing have one key, and others have another, whatever bytes their names have. The table is in `index`.

ghost use Rattle.std.specs.Prelude.{◌≡◌, ◌++◌, ◌∷◌, [], OnOk, IfOk};
ghost use Rattle.wb_names_rules.specs.Keys as spec;

use std::alloc::{AllocError, Global};
use wb_base::push;
use wb_names_theory::{Declaration, Site};

pub(crate) const SYMBOL: u8 = 0;

pub(crate) const ATTRIBUTE: u8 = 1;

pub(crate) const OCCURRENCE: u8 = 2;

pub(crate) const LEFT: u8 = 3;

pub(crate) const LABEL: u8 = 4;

pub(crate) const EQUATION: u8 = 5;

pub(crate) const FORWARD: u8 = 6;

pub(crate) const START: u8 = 7;

pub(crate) const EXTENSIBLE: u8 = 8;

pub(crate) const FORWARD_NEEDS: u8 = 9;

pub(crate) const PREFERENCE: u8 = 10;

pub(crate) const CLOSED: u8 = 11;

// The key of a declaration.
pub(crate) fn key_of(alloc: Global, declaration: &Declaration) -> Result<Vec<u8>, AllocError>
    ensures { IfOk result (λ key. key.items ≡ spec.key_of declaration.now) }
{
    match declaration {
        Declaration::Symbol { name, .. } => key(alloc, SYMBOL, name.as_slice()),
        Declaration::Attribute { name, .. } => key(alloc, ATTRIBUTE, name.as_slice()),
        Declaration::Occurrence {
            attribute,
            nonterminal,
        } => pair_key(
            alloc,
            OCCURRENCE,
            attribute.as_slice(),
            nonterminal.as_slice(),
        ),
        Declaration::Left { production, .. } => key(alloc, LEFT, production.as_slice()),
        Declaration::Label {
            production,
            label,
            ..
        } => pair_key(alloc, LABEL, production.as_slice(), label.as_slice()),
        Declaration::Equation {
            production,
            attribute,
            site,
        } => equation_key(alloc, production.as_slice(), attribute.as_slice(), site),
        Declaration::Forward(production) => key(alloc, FORWARD, production.as_slice()),
        Declaration::Start(_) => key(alloc, START, &[]),
        Declaration::Extensible(name) => key(alloc, EXTENSIBLE, name.as_slice()),
        Declaration::Closed(name) => key(alloc, CLOSED, name.as_slice()),
        Declaration::ForwardNeeds(name) => key(alloc, FORWARD_NEEDS, name.as_slice()),
        Declaration::Preference { first, second } => {
            pair_key(alloc, PREFERENCE, first.as_slice(), second.as_slice())
        }
    }
}

// The key of one text.
pub(crate) fn key(alloc: Global, tag: u8, text: &[u8]) -> Result<Vec<u8>, AllocError>
    ensures { IfOk result (λ key. key.items ≡ tag ∷ text.now) }
{
    let mut key = Vec::new(alloc);
    push(&mut key, tag)?;
    key.extend_from_slice(text)?;
    Ok(key)
}

// The key of two texts.
pub(crate) fn pair_key(
    alloc: Global,
    tag: u8,
    first: &[u8],
    second: &[u8],
) -> Result<Vec<u8>, AllocError>
    ensures { IfOk result (λ key. key.items ≡ tag ∷ (spec.marked first.now ++ second.now)) }
{
    let mut key = Vec::new(alloc);
    push(&mut key, tag)?;
    add_marked(first, &mut key)?;
    key.extend_from_slice(second)?;
    Ok(key)
}

// The key of what an equation is for.
fn equation_key(
    alloc: Global,
    production: &[u8],
    attribute: &[u8],
    site: &Site,
) -> Result<Vec<u8>, AllocError>
    ensures { IfOk result (λ key. key.items ≡ 5 ∷ (spec.marked production.now ++ (spec.marked attribute.now ++ spec.site_key site.now))) }
{
    let mut key = Vec::new(alloc);
    push(&mut key, EQUATION)?;
    add_marked(production, &mut key)?;
    add_marked(attribute, &mut key)?;
    add_site(site, &mut key)?;
    Ok(key)
}

// Adds a text with a mark before each byte and another at its end.
fn add_marked(text: &[u8], key: &mut Vec<u8>) -> Result<(), AllocError>
    ensures { OnOk result (key.new.items ≡ key.old.items ++ spec.marked text.now) }
{
    'bytes: for &byte in text {
        push(key, 1)?;
        push(key, byte)?;
    }
    push(key, 0)
}

// Adds a site.
fn add_site(site: &Site, key: &mut Vec<u8>) -> Result<(), AllocError>
    ensures { OnOk result (key.new.items ≡ key.old.items ++ spec.site_key site.now) }
{
    match site {
        Site::Top => push(key, 0),
        Site::Forward => push(key, 1),
        Site::Label(label) => {
            push(key, 2)?;
            key.extend_from_slice(label.as_slice())
        }
    }
}
