//! What is said of a chain of reads? Each step, with the place of the equation that reads.

ghost use Rattle.std.specs.Prelude.{◌≡◌, ◌<◌, ◌++◌, Contains, OnOk, Some};
ghost use Rattle.wb_flow.specs.Graphs.{IsFlowGraph};
ghost use Rattle.wb_flow.specs.Occurrences.{IsIndexOf};
ghost use Rattle.wb_syntax_resolved.specs.Attribution.{IsAttribution};
ghost use Rattle.wb_explain_flows_lists.specs.Lists.{HasText, HasTexts, Lists};
ghost use Rattle.wb_explain_flows.specs.Rules.{IsReadAt};
ghost use Rattle.wb_explain_flows.specs.Inner.Either.{SaysChainOr};
ghost use Rattle.wb_explain_flows.specs.Steps.{IsStepText, step_text};

use crate::chain::{Step, chain_of, is_chain};
use crate::rule::rule_of;
use std::alloc::{AllocError, Global};
use wb_explain_flows_lists::files::{file_of, text_of};
use wb_explain_flows_lists::lists::first_of;
use wb_explain_flows_lists::names::push_vertex;
use wb_explain_flows_lists::rule::Rule;
use wb_explain_flows_lists::told::Told;
use wb_explain_places::push_place;
use wb_flow::{FlowGraph, Vertex, graph_of};
use wb_syntax_resolved::{AttributionParts, Production};

// What is looked for: a chain from one vertex to another, and what is said after it. Steps that may be it are given, or none.
#[derive(Clone, Copy)]
pub(crate) struct Wanted<'a> {
    pub(crate) ends: Step,
    pub(crate) given: &'a [Step],
    pub(crate) rest: &'a [u8],
}

// Appends the given chain from one vertex of a production to another, or a shortest one, where it is one.
pub(crate) fn push_chain(
    alloc: Global,
    out: &mut Vec<u8>,
    told: &Told<'_>,
    production: &Production,
    wanted: &Wanted<'_>,
) -> Result<(), AllocError>
    requires attribution { IsAttribution told.now.scope.now.attributes.now }
    requires index { IsIndexOf told.now.scope.now.attributes.now.occurrences told.now.scope.now.index.now }
    requires listed { Contains told.now.scope.now.attributes.now.productions production.now }
    ensures { OnOk result (SaysChainOr told.now.source.now told.now.scope.now.attributes.now production.now wanted.now.ends out.old.items out.new.items) }
{
    let graph = graph_of(alloc, told.scope, production)?;
    let found = Found {
        told,
        production,
        graph: &graph,
        wanted,
    };
    let answer = push_found(alloc, out, &found);
    drop(graph);
    answer
}

// A production, its flow graph, and what is looked for in it.
#[derive(Clone, Copy)]
pub(crate) struct Found<'a> {
    told: &'a Told<'a>,
    production: &'a Production,
    graph: &'a FlowGraph,
    wanted: &'a Wanted<'a>,
}

// Appends the given chain, or one that is searched for.
fn push_found(alloc: Global, out: &mut Vec<u8>, found: &Found<'_>) -> Result<(), AllocError>
    requires { IsFlowGraph found.now.told.now.scope.now.attributes.now found.now.production.now found.now.graph.now }
    ensures { OnOk result (SaysChainOr found.now.told.now.source.now found.now.told.now.scope.now.attributes.now found.now.production.now found.now.wanted.now.ends out.old.items out.new.items) }
{
    if found.wanted.given.len() > 0 {
        return push_tested(out, found, found.wanted.given);
    }
    let ends = found.wanted.ends;
    let steps = chain_of(alloc, found.graph, ends.from, ends.to)?;
    let answer = push_tested(out, found, &steps);
    drop(steps);
    answer
}

// Appends steps, where they are a chain.
fn push_tested(out: &mut Vec<u8>, found: &Found<'_>, steps: &[Step]) -> Result<(), AllocError>
    requires { IsFlowGraph found.now.told.now.scope.now.attributes.now found.now.production.now found.now.graph.now }
    ensures { OnOk result (SaysChainOr found.now.told.now.source.now found.now.told.now.scope.now.attributes.now found.now.production.now found.now.wanted.now.ends out.old.items out.new.items) }
{
    let wanted = found.wanted;
    if !is_chain(found.graph, steps, wanted.ends.from, wanted.ends.to) {
        return Ok(());
    }
    push_list(out, found.told, found.production, steps, wanted.rest)
}

// Appends the steps, and what comes after them.
fn push_list(
    out: &mut Vec<u8>,
    told: &Told<'_>,
    production: &Production,
    steps: &[Step],
    rest: &[u8],
) -> Result<(), AllocError>
    ensures { OnOk result (Lists (IsStepText told.now.source.now told.now.scope.now.attributes.now production.now) steps.now out.old.items out.new.items) }
{
    out.extend_from_slice(b"\nStep by step:\n")?;
    push_steps(out, told, production, first_of(steps))?;
    out.extend_from_slice(rest)?;
    Ok(())
}

// Appends each of these steps.
fn push_steps(
    out: &mut Vec<u8>,
    told: &Told<'_>,
    production: &Production,
    steps: &[Step],
) -> Result<(), AllocError>
    ensures { OnOk result (HasTexts (IsStepText told.now.source.now told.now.scope.now.attributes.now production.now) steps.now out.old.items out.new.items) }
{
    'steps: for &step in steps {
        push_step(out, told, production, step)?;
    }
    Ok(())
}

// Appends a step.
fn push_step(
    out: &mut Vec<u8>,
    told: &Told<'_>,
    production: &Production,
    step: Step,
) -> Result<(), AllocError>
    ensures { OnOk result (HasText (IsStepText told.now.source.now told.now.scope.now.attributes.now production.now step) out.old.items out.new.items) }
{
    match rule_of(production, step.from, step.to) {
        Some(rule) => push_read(out, told, production, step, rule),
        None => push_need(out, told, production, step),
    }
}

// Appends a step by an equation.
fn push_read(
    out: &mut Vec<u8>,
    told: &Told<'_>,
    production: &Production,
    step: Step,
    rule: Rule,
) -> Result<(), AllocError>
    requires { IsReadAt production.now step.from step.to rule }
    ensures { OnOk result (HasText (IsStepText told.now.source.now told.now.scope.now.attributes.now production.now step) out.old.items out.new.items) }
{
    let text = text_of(told.source, rule.owner);
    if rule.offset > text.len() {
        return push_need(out, told, production, step);
    }
    push_pair(out, told.scope.attributes, production, step, b" reads ")?;
    out.extend_from_slice(b":\n\n")?;
    push_place(
        out,
        file_of(told.source, rule.owner).as_bytes(),
        text,
        rule.offset,
    )
}

// Appends another step.
fn push_need(
    out: &mut Vec<u8>,
    told: &Told<'_>,
    production: &Production,
    step: Step,
) -> Result<(), AllocError>
    ensures { OnOk result (HasText (IsStepText told.now.source.now told.now.scope.now.attributes.now production.now step) out.old.items out.new.items) }
{
    push_pair(out, told.scope.attributes, production, step, b" needs ")?;
    out.extend_from_slice(reason(step))?;
    Ok(())
}

// Appends both ends of a step.
fn push_pair(
    out: &mut Vec<u8>,
    parts: &AttributionParts,
    production: &Production,
    step: Step,
    word: &[u8],
) -> Result<(), AllocError>
    ensures { OnOk result (out.new.items ≡ out.old.items ++ step_text parts.now production.now step word.now) }
{
    out.extend_from_slice(b"\n")?;
    push_vertex(out, parts, production, step.from)?;
    out.extend_from_slice(word)?;
    push_vertex(out, parts, production, step.to)
}

// Why it needs that, where no equation says so.
fn reason(step: Step) -> &'static [u8] {
    match step.to {
        Vertex::LocalTree(_) => b", since it is computed on that tree.\n",
        Vertex::ForwardTree => b", since it is computed on that tree.\n",
        Vertex::Top(_) => b": without an equation for it, it is handed on.\n",
        Vertex::Forward(_) => reason_of_forward(step.from),
        _ => b", as the  needs { .. }  of its  occurs  line says.\n",
    }
}

// Why something needs an attribute of the forwarded tree.
fn reason_of_forward(from: Vertex) -> &'static [u8] {
    match from {
        Vertex::Top(_) => b": without an equation for it, it is that of the forwarded tree.\n",
        _ => b", as the  needs { .. }  of its  occurs  line says.\n",
    }
}
