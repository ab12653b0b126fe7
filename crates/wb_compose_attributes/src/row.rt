//! Renumbers a nonterminal, an attribute or an occurrence.

ghost use Rattle.std.specs.Prelude.{◌≡◌, IfOk, map};
ghost use Rattle.wb_compose_theory_attributes.specs.Rows as rows;
ghost use Rattle.wb_compose_attributes.specs.NewNumbers.{map_of};

use crate::numbers::{Numbers, place, place_grouped};
use std::alloc::{AllocError, Global};
use wb_base::{Kind, Sequence, push};
use wb_syntax_resolved::{Attribute, Nonterminal, Occurrence};

/// The owner of something in the union.
pub fn new_owner(numbers: &Numbers, owner: usize) -> usize
    ensures { result ≡ rows.new_owner numbers.now.owner owner }
{
    if owner == 0 { 0 } else { numbers.owner }
}

/// A nonterminal.
pub fn new_nonterminal(
    alloc: Global,
    numbers: &Numbers,
    row: &Nonterminal,
) -> Result<Nonterminal, AllocError>
    ensures { IfOk result (λ made. made ≡ rows.new_nonterminal (map_of numbers.now) numbers.now.owner row.now) }
{
    let name = row.name.copy()?;
    let forward_needs = attributes(alloc, numbers, row.forward_needs.as_slice())?;
    Ok(Nonterminal {
        name,
        owner: new_owner(numbers, row.owner),
        closed: row.closed,
        forward_needs,
    })
}

/// An attribute.
pub fn new_attribute(numbers: &Numbers, row: &Attribute) -> Result<Attribute, AllocError>
    ensures { IfOk result (λ made. made ≡ rows.new_attribute (map_of numbers.now) numbers.now.owner row.now) }
{
    let kind = new_kind(numbers, row.kind)?;
    Ok(Attribute {
        name: row.name.copy()?,
        owner: new_owner(numbers, row.owner),
        direction: row.direction,
        kind,
    })
}

/// An occurrence.
pub fn new_occurrence(
    alloc: Global,
    numbers: &Numbers,
    row: &Occurrence,
) -> Result<Occurrence, AllocError>
    ensures { IfOk result (λ made. made ≡ rows.new_occurrence (map_of numbers.now) numbers.now.owner row.now) }
{
    let attribute = place(&numbers.attribute, row.attribute)?;
    let nonterminal = place_grouped(&numbers.nonterminal, row.nonterminal)?;
    let needs = attributes(alloc, numbers, row.needs.as_slice())?;
    Ok(Occurrence {
        owner: new_owner(numbers, row.owner),
        attribute,
        nonterminal,
        needs,
    })
}

/// A nonterminal's number.
pub fn new_left(numbers: &Numbers, nonterminal: usize) -> Result<usize, AllocError>
    ensures { IfOk result (λ made. made ≡ (map_of numbers.now).nonterminal nonterminal) }
{
    place_grouped(&numbers.nonterminal, nonterminal)
}

// Numbers of attributes.
fn attributes(
    alloc: Global,
    numbers: &Numbers,
    old: &[usize],
) -> Result<Sequence<usize>, AllocError>
    ensures { IfOk result (λ made. made ≡ map ((map_of numbers.now).attribute) old.now) }
{
    let mut made = Vec::new(alloc);
    'attributes: for number in old {
        let next = place(&numbers.attribute, *number)?;
        push(&mut made, next)?;
    }
    Ok(Sequence::from_vec(made))
}

// A kind of values.
pub(crate) fn new_kind(numbers: &Numbers, kind: Kind) -> Result<Kind, AllocError>
    ensures { IfOk result (λ made. made ≡ rows.new_kind (map_of numbers.now) kind) }
{
    match kind {
        Kind::Int => Ok(Kind::Int),
        Kind::Bool => Ok(Kind::Bool),
        Kind::Text => Ok(Kind::Text),
        Kind::Tree(nonterminal) => Ok(Kind::Tree(place_grouped(
            &numbers.nonterminal,
            nonterminal,
        )?)),
    }
}
