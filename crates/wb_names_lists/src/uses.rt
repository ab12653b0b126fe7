//! Which names do the items of a file use, and what does the place of each ask for?
//!
//! Every rule goes over this one list. What is declared is in `items` and `base`.

ghost use Rattle.std.specs.Prelude.{◌≡◌, ◌++◌, ◌∷◌, [], OnOk, flat_map};
ghost use Rattle.wb_syntax.specs.declared.production.Child.{Child};
ghost use Rattle.wb_names_theory.specs.declared.usage.Usage.TheVariants as u;
ghost use Rattle.wb_names_theory.specs.Uses as spec;

use crate::copies::copies;
use std::alloc::AllocError;
use wb_base::{Bytes, Sequence, push};
use wb_names_theory::{LabelWanted, Site, Usage, Wanted};
use wb_syntax::{
    Child, Equation, Item, ItemForm, NamedKind, Node, Pattern, PlainForm, Production,
    ProductionRole, Target,
};

/// Adds what items use after the others, in the order of the text. If memory runs out, some of it may be there.
pub fn add_uses(items: &[Item<Pattern>], out: &mut Vec<Usage>) -> Result<(), AllocError>
    ensures { OnOk result (out.new.items ≡ out.old.items ++ spec.uses items.now) }
{
    'items: for item in items {
        add_form(&item.form, out)?;
    }
    Ok(())
}

// Adds what an item uses.
fn add_form(form: &ItemForm<Pattern>, out: &mut Vec<Usage>) -> Result<(), AllocError>
    ensures { OnOk result (out.new.items ≡ out.old.items ++ spec.form_uses form.now) }
{
    match form {
        ItemForm::Lexical { .. } => Ok(()),
        ItemForm::Plain(plain) => add_plain(plain, out),
        ItemForm::Production { role, production } => add_production(*role, production, out),
        ItemForm::Aspect { name, equations } => {
            add_name(name, Wanted::Production, out)?;
            add_equations(name, equations.as_slice(), out)
        }
    }
}

// Adds a name in its place.
fn add_name(name: &Bytes, wanted: Wanted, out: &mut Vec<Usage>) -> Result<(), AllocError>
    ensures { OnOk result (out.new.items ≡ out.old.items ++ u.Name name.now wanted ∷ []) }
{
    let name = name.copy()?;
    push(out, Usage::Name { name, wanted })
}

// Adds what an item of names alone uses.
fn add_plain(plain: &PlainForm, out: &mut Vec<Usage>) -> Result<(), AllocError>
    ensures { OnOk result (out.new.items ≡ out.old.items ++ spec.plain_uses plain.now) }
{
    match plain {
        PlainForm::Prefer { first, second } => {
            add_name(first, Wanted::Lexical, out)?;
            add_name(second, Wanted::Lexical, out)
        }
        PlainForm::Nonterminal(_) => Ok(()),
        PlainForm::Start(name) => add_name(name, Wanted::Nonterminal, out),
        PlainForm::Extensible(name) => add_name(name, Wanted::Nonterminal, out),
        PlainForm::Closed(name) => add_name(name, Wanted::Nonterminal, out),
        PlainForm::Synthesized { kind, .. } => add_kind(Wanted::Nonterminal, kind, out),
        PlainForm::Inherited { kind, .. } => add_kind(Wanted::Nonterminal, kind, out),
        PlainForm::Occurs {
            attribute,
            nonterminal,
            needs,
        } => add_occurs(attribute, nonterminal, needs, out),
        PlainForm::ForwardOn { nonterminal, needs } => {
            add_name(nonterminal, Wanted::Nonterminal, out)?;
            add_needs(nonterminal, needs.as_slice(), out)
        }
    }
}

// Adds the name of a kind.
fn add_kind(wanted: Wanted, kind: &NamedKind, out: &mut Vec<Usage>) -> Result<(), AllocError>
    ensures { OnOk result (out.new.items ≡ out.old.items ++ spec.kind_uses wanted kind.now) }
{
    match kind {
        NamedKind::Int | NamedKind::Bool | NamedKind::Text => Ok(()),
        NamedKind::Name(name) => add_name(name, wanted, out),
    }
}

// Adds what an occurrence uses.
fn add_occurs(
    attribute: &Bytes,
    nonterminal: &Bytes,
    needs: &Option<Sequence<Bytes>>,
    out: &mut Vec<Usage>,
) -> Result<(), AllocError>
    ensures { OnOk result (out.new.items ≡ out.old.items ++ spec.occurs_uses attribute.now nonterminal.now needs.now) }
{
    match needs {
        None => {
            add_name(attribute, Wanted::Attribute, out)?;
            add_name(nonterminal, Wanted::Nonterminal, out)
        }
        Some(needs) => {
            add_name(attribute, Wanted::Synthesized, out)?;
            add_name(nonterminal, Wanted::Nonterminal, out)?;
            add_needs(nonterminal, needs.as_slice(), out)
        }
    }
}

// Adds the attributes of a flow type on a nonterminal.
fn add_needs(nonterminal: &Bytes, needs: &[Bytes], out: &mut Vec<Usage>) -> Result<(), AllocError>
    ensures { OnOk result (out.new.items ≡ out.old.items ++ flat_map (spec.needs_uses nonterminal.now) needs.now) }
{
    'needs: for attribute in needs {
        add_need(nonterminal, attribute, out)?;
    }
    Ok(())
}

// Adds an attribute of a flow type on a nonterminal.
fn add_need(nonterminal: &Bytes, attribute: &Bytes, out: &mut Vec<Usage>) -> Result<(), AllocError>
    ensures { OnOk result (out.new.items ≡ out.old.items ++ spec.needs_uses nonterminal.now attribute.now) }
{
    add_name(attribute, Wanted::Inherited, out)?;
    let (attribute, nonterminal) = copies(attribute, nonterminal)?;
    push(
        out,
        Usage::Needs {
            attribute,
            nonterminal,
        },
    )
}

// Adds what a production uses.
fn add_production(
    role: ProductionRole,
    production: &Production,
    out: &mut Vec<Usage>,
) -> Result<(), AllocError>
    ensures { OnOk result (out.new.items ≡ out.old.items ++ spec.production_uses role production.now) }
{
    add_name(&production.left, Wanted::Nonterminal, out)?;
    add_children(child_wanted(role), production.children.as_slice(), out)?;
    add_equations(&production.name, production.equations.as_slice(), out)
}

// What the kind of a child may name.
fn child_wanted(role: ProductionRole) -> Wanted
    ensures { result ≡ spec.child_wanted role }
{
    match role {
        ProductionRole::Concrete => Wanted::GrammarSymbol,
        ProductionRole::Abstract => Wanted::Nonterminal,
    }
}

// Adds the kinds of children.
fn add_children(wanted: Wanted, children: &[Child], out: &mut Vec<Usage>) -> Result<(), AllocError>
    ensures { OnOk result (out.new.items ≡ out.old.items ++ flat_map (λ (c : Child). spec.kind_uses wanted c.kind) children.now) }
{
    'children: for child in children {
        add_kind(wanted, &child.kind, out)?;
    }
    Ok(())
}

// Adds what equations on a production use.
fn add_equations(
    production: &Bytes,
    equations: &[Equation],
    out: &mut Vec<Usage>,
) -> Result<(), AllocError>
    ensures { OnOk result (out.new.items ≡ out.old.items ++ flat_map (spec.equation_uses production.now) equations.now) }
{
    'equations: for equation in equations {
        add_target(production, &equation.target, out)?;
        add_nodes(production, equation.nodes.as_slice(), out)?;
    }
    Ok(())
}

// Adds what the left side of an equation uses.
fn add_target(production: &Bytes, target: &Target, out: &mut Vec<Usage>) -> Result<(), AllocError>
    ensures { OnOk result (out.new.items ≡ out.old.items ++ spec.target_uses production.now target.now) }
{
    match target {
        Target::Top(attribute) => {
            add_use(production, attribute, Wanted::Synthesized, Site::Top, out)
        }
        Target::Label { label, attribute } => {
            add_read(production, label, attribute, Wanted::Inherited, out)
        }
        Target::Forward(attribute) => {
            add_use(production, attribute, Wanted::Inherited, Site::Forward, out)
        }
        Target::Local { nonterminal, .. } => add_name(nonterminal, Wanted::Nonterminal, out),
        Target::ForwardsTo => Ok(()),
    }
}

// Adds a label of a production in its place.
fn add_label(
    production: &Bytes,
    label: &Bytes,
    wanted: LabelWanted,
    out: &mut Vec<Usage>,
) -> Result<(), AllocError>
    ensures { OnOk result (out.new.items ≡ out.old.items ++ u.Label production.now label.now wanted ∷ []) }
{
    let (production, label) = copies(production, label)?;
    push(
        out,
        Usage::Label {
            production,
            label,
            wanted,
        },
    )
}

// Adds the name of an attribute in its place, and the attribute of the tree at a site of a production.
fn add_use(
    production: &Bytes,
    attribute: &Bytes,
    wanted: Wanted,
    site: Site,
    out: &mut Vec<Usage>,
) -> Result<(), AllocError>
    ensures { OnOk result (out.new.items ≡ out.old.items ++ u.Name attribute.now wanted ∷ u.Attribute production.now attribute.now site ∷ []) }
{
    add_name(attribute, wanted, out)?;
    add_attribute(production, attribute, site, out)
}

// Adds an attribute of the tree at a site of a production.
fn add_attribute(
    production: &Bytes,
    attribute: &Bytes,
    site: Site,
    out: &mut Vec<Usage>,
) -> Result<(), AllocError>
    ensures { OnOk result (out.new.items ≡ out.old.items ++ u.Attribute production.now attribute.now site ∷ []) }
{
    match copies(production, attribute) {
        Ok((production, attribute)) => push(
            out,
            Usage::Attribute {
                production,
                attribute,
                site,
            },
        ),
        Err(error) => {
            drop(site);
            Err(error)
        }
    }
}

// Adds the name of an attribute in its place, and then a label and the attribute of its tree.
fn add_read(
    production: &Bytes,
    label: &Bytes,
    attribute: &Bytes,
    wanted: Wanted,
    out: &mut Vec<Usage>,
) -> Result<(), AllocError>
    ensures { OnOk result (out.new.items ≡ out.old.items ++ u.Name attribute.now wanted ∷ spec.read_uses production.now label.now attribute.now) }
{
    add_name(attribute, wanted, out)?;
    add_label(production, label, LabelWanted::Tree, out)?;
    let label = label.copy()?;
    add_attribute(production, attribute, Site::Label(label), out)
}

// Adds what the nodes of an expression on a production use.
fn add_nodes(production: &Bytes, nodes: &[Node], out: &mut Vec<Usage>) -> Result<(), AllocError>
    ensures { OnOk result (out.new.items ≡ out.old.items ++ flat_map (spec.node_uses production.now) nodes.now) }
{
    'nodes: for node in nodes {
        add_node(production, node, out)?;
    }
    Ok(())
}

// Adds what a node of an expression on a production uses.
fn add_node(production: &Bytes, node: &Node, out: &mut Vec<Usage>) -> Result<(), AllocError>
    ensures { OnOk result (out.new.items ≡ out.old.items ++ spec.node_uses production.now node.now) }
{
    match node {
        Node::Label(label) => add_label(production, label, LabelWanted::Value, out),
        Node::Read { label, attribute } => {
            add_read(production, label, attribute, Wanted::Synthesized, out)
        }
        Node::Lexeme(label) => add_label(production, label, LabelWanted::Lexeme, out),
        Node::Top(attribute) => {
            add_use(production, attribute, Wanted::Inherited, Site::Top, out)
        }
        Node::Forward(attribute) => {
            add_use(
                production,
                attribute,
                Wanted::Synthesized,
                Site::Forward,
                out,
            )
        }
        Node::Build { production, .. } => add_name(production, Wanted::Production, out),
        _ => Ok(()),
    }
}
