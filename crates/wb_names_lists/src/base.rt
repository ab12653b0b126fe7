//! What does a base declare?
//!
//! Its numbers are turned into names again, so that rules compare what is there with what a file writes: those that name nothing into the
//! empty name, which is made once and lent. What items declare is in `items`.

ghost use Rattle.std.specs.Prelude.{◌≡◌, ◌++◌, ◌∷◌, [], OnOk, IfOk, map, flat_map};
ghost use Rattle.wb_syntax_resolved.specs.declared.attributes.Attribute.{Attribute};
ghost use Rattle.wb_syntax_resolved.specs.declared.attributes.Nonterminal.{Nonterminal};
ghost use Rattle.wb_syntax_resolved.specs.declared.attributes.Occurrence.{Occurrence};
ghost use Rattle.wb_syntax_resolved.specs.declared.equation.Equation.{Equation};
ghost use Rattle.wb_syntax_resolved.specs.declared.production.Child.{Child};
ghost use Rattle.wb_syntax_resolved.specs.declared.production.Local.{Local};
ghost use Rattle.wb_syntax_resolved.specs.declared.terminal.Terminal.{Terminal};
ghost use Rattle.wb_names_theory.specs.declared.declaration.Declaration.TheVariants as d;
ghost use Rattle.wb_names_theory.specs.declared.declaration.Labelled.TheVariants as label;
ghost use Rattle.wb_names_theory.specs.declared.declaration.Sort.TheVariants as sort;
ghost use Rattle.wb_names_theory.specs.Declares as spec;

use crate::items::{add_attribute, add_equation, add_label, add_left, add_occurrence, add_symbol};
use std::alloc::AllocError;
use wb_base::{Bytes, Kind, push};
use wb_names_theory::{Declaration, Labelled, Site, Sort};
use wb_syntax_resolved::{
    Attribute, Child, ChildKind, Equation, Local, Nonterminal, Occurrence, Place, Production,
    ResolvedParts, Target, Terminal, TerminalKind,
};

/// Adds what a base declares after the others. If memory runs out, some of it may be there.
pub fn add_base_declarations(
    base: &ResolvedParts,
    out: &mut Vec<Declaration>,
) -> Result<(), AllocError>
    ensures { OnOk result (out.new.items ≡ out.old.items ++ spec.base_declarations base.now) }
{
    let attributes = base.attributes.parts();
    add_terminals(base.terminals.as_slice(), out)?;
    add_nonterminals(attributes.nonterminals.as_slice(), out)?;
    add_attributes(attributes.attributes.as_slice(), out)?;
    let unnamed = Bytes::empty();
    let answer = add_numbered(base, &unnamed, out);
    drop(unnamed);
    answer
}

// Adds what is declared by numbers: the occurrences, and what productions declare.
fn add_numbered(
    base: &ResolvedParts,
    unnamed: &Bytes,
    out: &mut Vec<Declaration>,
) -> Result<(), AllocError>
    requires { unnamed.now ≡ [] }
    ensures { OnOk result (out.new.items ≡ out.old.items ++ (map (λ (x : Occurrence). d.Occurrence (spec.attribute_name base.now x.attribute) (spec.nonterminal_name base.now x.nonterminal)) base.now.attributes.occurrences ++ flat_map (spec.production_declarations base.now) base.now.attributes.productions)) }
{
    let attributes = base.attributes.parts();
    add_occurrences(base, unnamed, attributes.occurrences.as_slice(), out)?;
    add_productions(base, unnamed, attributes.productions.as_slice(), out)
}

// Adds the terminals, layout and markers.
fn add_terminals(terminals: &[Terminal], out: &mut Vec<Declaration>) -> Result<(), AllocError>
    ensures { OnOk result (out.new.items ≡ out.old.items ++ map (λ (x : Terminal). d.Symbol x.name (spec.terminal_sort x.kind)) terminals.now) }
{
    'terminals: for terminal in terminals {
        add_symbol(&terminal.name, terminal_sort(terminal.kind), out)?;
    }
    Ok(())
}

// What a resolved terminal is declared as.
fn terminal_sort(kind: TerminalKind) -> Sort
    ensures { result ≡ spec.terminal_sort kind }
{
    match kind {
        TerminalKind::Plain => Sort::Terminal,
        TerminalKind::Ignore => Sort::Layout,
        TerminalKind::Marking => Sort::Marker,
    }
}

// Adds the nonterminals.
fn add_nonterminals(
    nonterminals: &[Nonterminal],
    out: &mut Vec<Declaration>,
) -> Result<(), AllocError>
    ensures { OnOk result (out.new.items ≡ out.old.items ++ map (λ (x : Nonterminal). d.Symbol x.name sort.Nonterminal) nonterminals.now) }
{
    'nonterminals: for nonterminal in nonterminals {
        add_symbol(&nonterminal.name, Sort::Nonterminal, out)?;
    }
    Ok(())
}

// Adds the attributes.
fn add_attributes(attributes: &[Attribute], out: &mut Vec<Declaration>) -> Result<(), AllocError>
    ensures { OnOk result (out.new.items ≡ out.old.items ++ map (λ (x : Attribute). d.Attribute x.name x.direction) attributes.now) }
{
    'attributes: for attribute in attributes {
        add_attribute(&attribute.name, attribute.direction, out)?;
    }
    Ok(())
}

// Adds the occurrences.
fn add_occurrences(
    base: &ResolvedParts,
    unnamed: &Bytes,
    occurrences: &[Occurrence],
    out: &mut Vec<Declaration>,
) -> Result<(), AllocError>
    requires { unnamed.now ≡ [] }
    ensures { OnOk result (out.new.items ≡ out.old.items ++ map (λ (x : Occurrence). d.Occurrence (spec.attribute_name base.now x.attribute) (spec.nonterminal_name base.now x.nonterminal)) occurrences.now) }
{
    'occurrences: for occurrence in occurrences {
        let attribute = attribute_name(base, unnamed, occurrence.attribute);
        let nonterminal = nonterminal_name(base, unnamed, occurrence.nonterminal);
        add_occurrence(attribute, nonterminal, out)?;
    }
    Ok(())
}

// The name of the terminal of a number; none has the empty name.
fn terminal_name<'a>(base: &'a ResolvedParts, unnamed: &'a Bytes, number: usize) -> &'a Bytes
    requires { unnamed.now ≡ [] }
    ensures { result.now ≡ spec.terminal_name base.now number }
{
    match base.terminals.as_slice().get(number) {
        Some(terminal) => &terminal.name,
        None => unnamed,
    }
}

// The name of the nonterminal of a number.
fn nonterminal_name<'a>(base: &'a ResolvedParts, unnamed: &'a Bytes, number: usize) -> &'a Bytes
    requires { unnamed.now ≡ [] }
    ensures { result.now ≡ spec.nonterminal_name base.now number }
{
    match base.attributes.parts().nonterminals.as_slice().get(number) {
        Some(nonterminal) => &nonterminal.name,
        None => unnamed,
    }
}

// The name of the attribute of a number.
fn attribute_name<'a>(base: &'a ResolvedParts, unnamed: &'a Bytes, number: usize) -> &'a Bytes
    requires { unnamed.now ≡ [] }
    ensures { result.now ≡ spec.attribute_name base.now number }
{
    match base.attributes.parts().attributes.as_slice().get(number) {
        Some(attribute) => &attribute.name,
        None => unnamed,
    }
}

// Adds what productions declare.
fn add_productions(
    base: &ResolvedParts,
    unnamed: &Bytes,
    productions: &[Production],
    out: &mut Vec<Declaration>,
) -> Result<(), AllocError>
    requires { unnamed.now ≡ [] }
    ensures { OnOk result (out.new.items ≡ out.old.items ++ flat_map (spec.production_declarations base.now) productions.now) }
{
    'productions: for production in productions {
        add_production(base, unnamed, production, out)?;
    }
    Ok(())
}

// Adds what a production declares.
fn add_production(
    base: &ResolvedParts,
    unnamed: &Bytes,
    production: &Production,
    out: &mut Vec<Declaration>,
) -> Result<(), AllocError>
    requires { unnamed.now ≡ [] }
    ensures { OnOk result (out.new.items ≡ out.old.items ++ spec.production_declarations base.now production.now) }
{
    add_symbol(&production.name, Sort::Production, out)?;
    add_left(
        &production.name,
        nonterminal_name(base, unnamed, production.left),
        out,
    )?;
    add_children(
        base,
        unnamed,
        &production.name,
        production.children.as_slice(),
        out,
    )?;
    add_locals(
        base,
        unnamed,
        &production.name,
        production.locals.as_slice(),
        out,
    )?;
    add_forward(production, out)?;
    add_equations(
        base,
        unnamed,
        production,
        production.equations.as_slice(),
        out,
    )
}

// Adds what its children declare.
fn add_children(
    base: &ResolvedParts,
    unnamed: &Bytes,
    production: &Bytes,
    children: &[Child],
    out: &mut Vec<Declaration>,
) -> Result<(), AllocError>
    requires { unnamed.now ≡ [] }
    ensures { OnOk result (out.new.items ≡ out.old.items ++ map (λ (c : Child). d.Label production.now c.label (spec.base_labelled base.now c.kind)) children.now) }
{
    'children: for child in children {
        let is = labelled(base, unnamed, child.kind)?;
        add_label(production, &child.label, is, out)?;
    }
    Ok(())
}

// What a child is.
fn labelled(base: &ResolvedParts, unnamed: &Bytes, kind: ChildKind) -> Result<Labelled, AllocError>
    requires { unnamed.now ≡ [] }
    ensures { IfOk result (λ made. made ≡ spec.base_labelled base.now kind) }
{
    match kind {
        ChildKind::Terminal(number) => Ok(Labelled::Child(terminal_name(
            base, unnamed, number,
        ).copy()?)),
        ChildKind::Value(Kind::Tree(number)) => {
            Ok(Labelled::Child(nonterminal_name(base, unnamed, number).copy()?))
        }
        ChildKind::Value(_) => Ok(Labelled::Plain),
    }
}

// Adds what its locals declare.
fn add_locals(
    base: &ResolvedParts,
    unnamed: &Bytes,
    production: &Bytes,
    locals: &[Local],
    out: &mut Vec<Declaration>,
) -> Result<(), AllocError>
    requires { unnamed.now ≡ [] }
    ensures { OnOk result (out.new.items ≡ out.old.items ++ map (λ (l : Local). d.Label production.now l.label (label.Local (spec.nonterminal_name base.now l.nonterminal))) locals.now) }
{
    'locals: for local in locals {
        let nonterminal = nonterminal_name(base, unnamed, local.nonterminal).copy()?;
        add_label(production, &local.label, Labelled::Local(nonterminal), out)?;
    }
    Ok(())
}

// Adds that it forwards, where it does.
fn add_forward(production: &Production, out: &mut Vec<Declaration>) -> Result<(), AllocError>
    ensures { OnOk result (out.new.items ≡ out.old.items ++ spec.forward_declarations production.now.name production.now.forward) }
{
    match &production.forward {
        None => Ok(()),
        Some(_) => push(out, Declaration::Forward(production.name.copy()?)),
    }
}

// Adds what its equations declare.
fn add_equations(
    base: &ResolvedParts,
    unnamed: &Bytes,
    production: &Production,
    equations: &[Equation],
    out: &mut Vec<Declaration>,
) -> Result<(), AllocError>
    requires { unnamed.now ≡ [] }
    ensures { OnOk result (out.new.items ≡ out.old.items ++ map (λ (e : Equation). d.Equation production.now.name (spec.target_attribute base.now e.target) (spec.target_site production.now e.target)) equations.now) }
{
    'equations: for equation in equations {
        add_target(base, unnamed, production, equation.target, out)?;
    }
    Ok(())
}

// Adds what an equation declares, by what it is for.
fn add_target(
    base: &ResolvedParts,
    unnamed: &Bytes,
    production: &Production,
    target: Target,
    out: &mut Vec<Declaration>,
) -> Result<(), AllocError>
    requires { unnamed.now ≡ [] }
    ensures { OnOk result (out.new.items ≡ out.old.items ++ d.Equation production.now.name (spec.target_attribute base.now target) (spec.target_site production.now target) ∷ []) }
{
    let name = &production.name;
    match target {
        Target::Top(attribute) => {
            add_equation(
                name,
                attribute_name(base, unnamed, attribute),
                Site::Top,
                out,
            )
        }
        Target::Place { place, attribute } => {
            let label = label_at(production, unnamed, place).copy()?;
            add_equation(
                name,
                attribute_name(base, unnamed, attribute),
                Site::Label(label),
                out,
            )
        }
        Target::Forward(attribute) => {
            add_equation(
                name,
                attribute_name(base, unnamed, attribute),
                Site::Forward,
                out,
            )
        }
    }
}

// The label of a place of a production; none has the empty label.
fn label_at<'a>(production: &'a Production, unnamed: &'a Bytes, place: Place) -> &'a Bytes
    requires { unnamed.now ≡ [] }
    ensures { result.now ≡ spec.label_at production.now place }
{
    match place {
        Place::Child(number) => match production.children.as_slice().get(number) {
            Some(child) => &child.label,
            None => unnamed,
        },
        Place::Local(number) => match production.locals.as_slice().get(number) {
            Some(local) => &local.label,
            None => unnamed,
        },
    }
}
