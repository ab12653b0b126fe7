//! What do the items of a file declare?
//!
//! Declarations are listed in the order of the text. What the items use is in `uses`, and what a base declares in `base`.

ghost use Rattle.std.specs.Prelude.{◌≡◌, ◌++◌, ◌∷◌, [], OnOk, IfOk, map};
ghost use Rattle.wb_syntax.specs.declared.production.Child.{Child};
ghost use Rattle.wb_names_theory.specs.declared.declaration.Declaration.TheVariants as d;
ghost use Rattle.wb_names_theory.specs.Declares as spec;

use crate::copies::copies;
use std::alloc::AllocError;
use wb_base::{Bytes, push};
use wb_names_theory::{Declaration, Labelled, Site, Sort};
use wb_syntax::{
    Child, Equation, Item, ItemForm, NamedKind, Pattern, PlainForm, Production, Role, Target,
};
use wb_syntax_resolved::Direction;

/// Adds what items declare after the others, in the order of the text. If memory runs out, some of it may be there.
pub fn add_item_declarations(
    items: &[Item<Pattern>],
    out: &mut Vec<Declaration>,
) -> Result<(), AllocError>
    ensures { OnOk result (out.new.items ≡ out.old.items ++ spec.item_declarations items.now) }
{
    'items: for item in items {
        add_form(&item.form, out)?;
    }
    Ok(())
}

// Adds what an item declares.
fn add_form(form: &ItemForm<Pattern>, out: &mut Vec<Declaration>) -> Result<(), AllocError>
    ensures { OnOk result (out.new.items ≡ out.old.items ++ spec.form_declarations form.now) }
{
    match form {
        ItemForm::Lexical { role, name, .. } => add_symbol(name, role_sort(*role), out),
        ItemForm::Plain(plain) => add_plain(plain, out),
        ItemForm::Production { production, .. } => add_production(production, out),
        ItemForm::Aspect { name, equations } => add_equations(name, equations.as_slice(), out),
    }
}

// What a terminal, layout or marker is declared as.
fn role_sort(role: Role) -> Sort
    ensures { result ≡ spec.role_sort role }
{
    match role {
        Role::Terminal => Sort::Terminal,
        Role::Ignore => Sort::Layout,
        Role::Marking => Sort::Marker,
    }
}

// Adds what an item of names alone declares.
fn add_plain(plain: &PlainForm, out: &mut Vec<Declaration>) -> Result<(), AllocError>
    ensures { OnOk result (out.new.items ≡ out.old.items ++ spec.plain_declaration plain.now ∷ []) }
{
    match plain {
        PlainForm::Prefer { first, second } => add_preference(first, second, out),
        PlainForm::Nonterminal(name) => add_symbol(name, Sort::Nonterminal, out),
        PlainForm::Start(name) => push(out, Declaration::Start(name.copy()?)),
        PlainForm::Extensible(name) => push(out, Declaration::Extensible(name.copy()?)),
        PlainForm::Closed(name) => push(out, Declaration::Closed(name.copy()?)),
        PlainForm::Synthesized { name, .. } => add_attribute(name, Direction::Synthesized, out),
        PlainForm::Inherited { name, .. } => add_attribute(name, Direction::Inherited, out),
        PlainForm::Occurs {
            attribute,
            nonterminal,
            ..
        } => add_occurrence(attribute, nonterminal, out),
        PlainForm::ForwardOn { nonterminal, .. } => {
            push(out, Declaration::ForwardNeeds(nonterminal.copy()?))
        }
    }
}

// Adds that one terminal is preferred to another.
fn add_preference(
    first: &Bytes,
    second: &Bytes,
    out: &mut Vec<Declaration>,
) -> Result<(), AllocError>
    ensures { OnOk result (out.new.items ≡ out.old.items ++ d.Preference first.now second.now ∷ []) }
{
    let (first, second) = copies(first, second)?;
    push(out, Declaration::Preference { first, second })
}

// Adds an attribute.
pub(crate) fn add_attribute(
    name: &Bytes,
    direction: Direction,
    out: &mut Vec<Declaration>,
) -> Result<(), AllocError>
    ensures { OnOk result (out.new.items ≡ out.old.items ++ d.Attribute name.now direction ∷ []) }
{
    let name = name.copy()?;
    push(out, Declaration::Attribute { name, direction })
}

// Adds that an attribute occurs on a nonterminal.
pub(crate) fn add_occurrence(
    attribute: &Bytes,
    nonterminal: &Bytes,
    out: &mut Vec<Declaration>,
) -> Result<(), AllocError>
    ensures { OnOk result (out.new.items ≡ out.old.items ++ d.Occurrence attribute.now nonterminal.now ∷ []) }
{
    let (attribute, nonterminal) = copies(attribute, nonterminal)?;
    push(
        out,
        Declaration::Occurrence {
            attribute,
            nonterminal,
        },
    )
}

// Adds what a production declares.
fn add_production(production: &Production, out: &mut Vec<Declaration>) -> Result<(), AllocError>
    ensures { OnOk result (out.new.items ≡ out.old.items ++ spec.written_declarations production.now) }
{
    add_symbol(&production.name, Sort::Production, out)?;
    add_left(&production.name, &production.left, out)?;
    add_children(&production.name, production.children.as_slice(), out)?;
    add_equations(&production.name, production.equations.as_slice(), out)
}

// Adds a terminal, layout, marker, nonterminal or production.
pub(crate) fn add_symbol(
    name: &Bytes,
    sort: Sort,
    out: &mut Vec<Declaration>,
) -> Result<(), AllocError>
    ensures { OnOk result (out.new.items ≡ out.old.items ++ d.Symbol name.now sort ∷ []) }
{
    let name = name.copy()?;
    push(out, Declaration::Symbol { name, sort })
}

// Adds which nonterminal is on a production's left.
pub(crate) fn add_left(
    production: &Bytes,
    nonterminal: &Bytes,
    out: &mut Vec<Declaration>,
) -> Result<(), AllocError>
    ensures { OnOk result (out.new.items ≡ out.old.items ++ d.Left production.now nonterminal.now ∷ []) }
{
    let (production, nonterminal) = copies(production, nonterminal)?;
    push(
        out,
        Declaration::Left {
            production,
            nonterminal,
        },
    )
}

// Adds what the children of a production declare.
fn add_children(
    production: &Bytes,
    children: &[Child],
    out: &mut Vec<Declaration>,
) -> Result<(), AllocError>
    ensures { OnOk result (out.new.items ≡ out.old.items ++ map (spec.child_declaration production.now) children.now) }
{
    'children: for child in children {
        let is = labelled(&child.kind)?;
        add_label(production, &child.label, is, out)?;
    }
    Ok(())
}

// What a child is.
fn labelled(kind: &NamedKind) -> Result<Labelled, AllocError>
    ensures { IfOk result (λ made. made ≡ spec.labelled kind.now) }
{
    match kind {
        NamedKind::Int | NamedKind::Bool | NamedKind::Text => Ok(Labelled::Plain),
        NamedKind::Name(name) => Ok(Labelled::Child(name.copy()?)),
    }
}

// Adds that a production has a label.
pub(crate) fn add_label(
    production: &Bytes,
    label: &Bytes,
    is: Labelled,
    out: &mut Vec<Declaration>,
) -> Result<(), AllocError>
    ensures { OnOk result (out.new.items ≡ out.old.items ++ d.Label production.now label.now is ∷ []) }
{
    match copies(production, label) {
        Ok((production, label)) => push(
            out,
            Declaration::Label {
                production,
                label,
                is,
            },
        ),
        Err(error) => {
            drop(is);
            Err(error)
        }
    }
}

// Adds what equations on a production declare.
fn add_equations(
    production: &Bytes,
    equations: &[Equation],
    out: &mut Vec<Declaration>,
) -> Result<(), AllocError>
    ensures { OnOk result (out.new.items ≡ out.old.items ++ spec.equation_declarations production.now equations.now) }
{
    'equations: for equation in equations {
        add_target(production, &equation.target, out)?;
    }
    Ok(())
}

// Adds what an equation on a production declares.
fn add_target(
    production: &Bytes,
    target: &Target,
    out: &mut Vec<Declaration>,
) -> Result<(), AllocError>
    ensures { OnOk result (out.new.items ≡ out.old.items ++ spec.target_declaration production.now target.now ∷ []) }
{
    match target {
        Target::Top(attribute) => add_equation(production, attribute, Site::Top, out),
        Target::Label { label, attribute } => {
            let label = label.copy()?;
            add_equation(production, attribute, Site::Label(label), out)
        }
        Target::Forward(attribute) => add_equation(production, attribute, Site::Forward, out),
        Target::Local { label, nonterminal } => {
            let nonterminal = nonterminal.copy()?;
            add_label(production, label, Labelled::Local(nonterminal), out)
        }
        Target::ForwardsTo => push(out, Declaration::Forward(production.copy()?)),
    }
}

// Adds that an equation of a production gives an attribute.
pub(crate) fn add_equation(
    production: &Bytes,
    attribute: &Bytes,
    site: Site,
    out: &mut Vec<Declaration>,
) -> Result<(), AllocError>
    ensures { OnOk result (out.new.items ≡ out.old.items ++ d.Equation production.now attribute.now site ∷ []) }
{
    match copies(production, attribute) {
        Ok((production, attribute)) => push(
            out,
            Declaration::Equation {
                production,
                attribute,
                site,
            },
        ),
        Err(error) => {
            drop(site);
            Err(error)
        }
    }
}
