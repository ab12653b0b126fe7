//! Are resolved specifications made, copied and checked for kinds?
//!
//! One host declares nothing. Another has one equation, with another expression in each test. Answers follow from the rules of kinds.

ghost use Rattle.std.specs.Prelude.{◌≡◌, [], ◌∷◌, IfOk, OnOk};
ghost use Rattle.wb_tests_values.specs.Inner.Empty.{no_parts};
ghost use Rattle.wb_tests_values.specs.Inner.Sample.{IsSampleNode, attribute_v, equation_of, nonterminal_n, production_p, sample, v_on_n};

use crate::holds;
use std::alloc::{AllocError, Global};
use wb_base::{Bytes, Kind, Sequence};
use wb_operations::{Standard, standard_table};
use wb_syntax_resolved::{
    Attribute, Attribution, AttributionParts, Direction, Equation, Node, Nonterminal, Occurrence,
    Production, ProductionRole, Resolved, ResolvedParts, Target,
};
use wb_types::{TypeRefusal, check_types};
use wb_values::Signatures;

// No values.
fn nothing<T>(alloc: Global) -> Sequence<T>
    ensures { result ≡ [] }
{
    Sequence::from_vec(Vec::new(alloc))
}

// Lists without values.
fn no_parts(alloc: Global) -> AttributionParts
    ensures { result ≡ no_parts }
{
    AttributionParts {
        extensions: nothing(alloc),
        nonterminals: nothing(alloc),
        attributes: nothing(alloc),
        occurrences: nothing(alloc),
        productions: nothing(alloc),
        signatures: Signatures::new(alloc),
    }
}

// The attributes of a host that declares nothing.
fn no_attributes(alloc: Global) -> Result<Attribution, AllocError>
    ensures { IfOk result (λ made. made ≡ no_parts) }
{
    Attribution::new(alloc, no_parts(alloc))
}

// The nonterminal `N`.
fn nonterminals(alloc: Global) -> Result<Sequence<Nonterminal>, AllocError>
    ensures { IfOk result (λ made. made ≡ nonterminal_n ∷ []) }
{
    let name = Bytes::from_slice(alloc, b"N")?;
    let all = vec![in alloc;
        Nonterminal {
            name,
            owner: 0,
            closed: false,
            forward_needs: nothing(alloc)
        },
    ]?;
    Ok(Sequence::from_vec(all))
}

// The attribute `v`, a number.
fn attributes(alloc: Global) -> Result<Sequence<Attribute>, AllocError>
    ensures { IfOk result (λ made. made ≡ attribute_v ∷ []) }
{
    let name = Bytes::from_slice(alloc, b"v")?;
    let all = vec![in alloc;
        Attribute {
            name,
            owner: 0,
            direction: Direction::Synthesized,
            kind: Kind::Int
        },
    ]?;
    Ok(Sequence::from_vec(all))
}

// The occurrence of `v` on `N`.
fn occurrences(alloc: Global) -> Result<Sequence<Occurrence>, AllocError>
    ensures { IfOk result (λ made. made ≡ v_on_n ∷ []) }
{
    let all = vec![in alloc;
        Occurrence {
            owner: 0,
            attribute: 0,
            nonterminal: 0,
            needs: nothing(alloc)
        },
    ]?;
    Ok(Sequence::from_vec(all))
}

// The equation of `v` by this node, at byte 7.
fn equations(alloc: Global, node: Node) -> Result<Sequence<Equation>, AllocError>
    ensures { IfOk result (λ made. made ≡ equation_of node ∷ []) }
{
    let nodes = vec![in alloc; node]?;
    let all = vec![in alloc;
        Equation {
            owner: 0,
            offset: 7,
            target: Target::Top(0),
            nodes: Sequence::from_vec(nodes)
        },
    ]?;
    Ok(Sequence::from_vec(all))
}

// The production `p` with this equation.
fn productions(alloc: Global, node: Node) -> Result<Sequence<Production>, AllocError>
    ensures { IfOk result (λ made. made ≡ production_p node ∷ []) }
{
    let equations = equations(alloc, node)?;
    let name = Bytes::from_slice(alloc, b"p")?;
    let production = Production {
        name,
        owner: 0,
        role: ProductionRole::Abstract,
        left: 0,
        children: nothing(alloc),
        locals: nothing(alloc),
        forward: None,
        equations,
    };
    let all = vec![in alloc; production]?;
    Ok(Sequence::from_vec(all))
}

// Fills in the lists of a host whose one equation is by this node.
fn fill(alloc: Global, parts: &mut AttributionParts, node: Node) -> Result<(), AllocError>
    requires { parts.old ≡ no_parts }
    ensures { OnOk result (parts.new ≡ sample node) }
{
    parts.productions = productions(alloc, node)?;
    parts.signatures.add(b"p", 0, &[])?;
    parts.nonterminals = nonterminals(alloc)?;
    parts.attributes = attributes(alloc)?;
    parts.occurrences = occurrences(alloc)?;
    Ok(())
}

// The attributes of such a host. Lists that are empty at first are filled in place, so that at most one value is dropped when memory runs
// out.
fn one_equation(alloc: Global, node: Node) -> Result<Attribution, AllocError>
    requires { IsSampleNode node }
    ensures { IfOk result (λ made. made ≡ sample node) }
{
    let mut parts = no_parts(alloc);
    fill(alloc, &mut parts, node)?;
    Attribution::new(alloc, parts)
}

// A host that declares nothing.
fn empty_host(alloc: Global) -> Result<Resolved, AllocError> {
    let attributes = no_attributes(alloc)?;
    let host = Bytes::from_slice(alloc, b"h")?;
    let parts = ResolvedParts {
        host,
        grammar: None,
        terminals: nothing(alloc),
        preferences: nothing(alloc),
        extensible: nothing(alloc),
        attributes,
    };
    Resolved::new(alloc, parts)
}

// A host whose one equation is by this node.
fn sample_host(alloc: Global, node: Node) -> Result<Resolved, AllocError>
    requires { IsSampleNode node }
{
    let host = Bytes::from_slice(alloc, b"h")?;
    let attributes = one_equation(alloc, node)?;
    let parts = ResolvedParts {
        host,
        grammar: None,
        terminals: nothing(alloc),
        preferences: nothing(alloc),
        extensible: nothing(alloc),
        attributes,
    };
    Resolved::new(alloc, parts)
}

// Whether a copy of attributes has no productions.
fn is_empty_copied(attributes: &Attribution) -> Result<bool, AllocError> {
    Ok(attributes.copy()?.parts().productions.is_empty())
}

// Whether these are the parts of the host that declares nothing.
fn is_empty_host(resolved: &Resolved) -> Result<bool, AllocError> {
    let parts = resolved.parts();
    Ok(parts.host.as_slice() == b"h".as_slice() && is_empty_copied(&parts.attributes)?)
}

fn is_copied(resolved: &Resolved) -> Result<bool, AllocError> {
    is_empty_host(&resolved.copy()?)
}

// What the rules of kinds say.
#[derive(Clone, Copy, PartialEq, Eq)]
enum Verdict {
    // Kinds are right.
    Right,
    // There is no operation `frob`.
    Unknown,
    // The arity or the kind at this byte is wrong.
    WrongArity(usize),
    WrongKind(usize),
    Else,
}

fn verdict_of(answer: &Result<(), TypeRefusal>) -> Verdict {
    match answer {
        Ok(()) => Verdict::Right,
        Err(TypeRefusal::UnknownOperation(name)) if name.as_slice() == b"frob".as_slice() => {
            Verdict::Unknown
        }
        Err(TypeRefusal::WrongArity(at)) => Verdict::WrongArity(*at),
        Err(TypeRefusal::TypeMismatch(at)) => Verdict::WrongKind(*at),
        Err(_) => Verdict::Else,
    }
}

// Whether this is what the rules of kinds say of a host.
fn has_verdict(alloc: Global, resolved: &Resolved, wanted: Verdict) -> Result<bool, AllocError> {
    let table = standard_table(alloc)?;
    Ok(verdict_of(&check_types::<Standard>(alloc, resolved, &table)) == wanted)
}

// The same for a host whose one equation is by this node.
fn has_verdict_by(alloc: Global, node: Node, wanted: Verdict) -> Result<bool, AllocError>
    requires { IsSampleNode node }
{
    let resolved = sample_host(alloc, node)?;
    has_verdict(alloc, &resolved, wanted)
}

// The same for a call of an operation that doesn't exist.
fn has_verdict_by_call(alloc: Global, wanted: Verdict) -> Result<bool, AllocError> {
    let operation = Bytes::from_slice(alloc, b"frob")?;
    let call = Node::Call {
        operation,
        arguments: nothing(alloc),
    };
    has_verdict_by(alloc, call, wanted)
}

// Whether the host that declares nothing is copied, and its kinds are right.
fn is_nothing_right(alloc: Global) -> Result<bool, AllocError> {
    let host = empty_host(alloc)?;
    Ok(is_copied(&host)? && has_verdict(alloc, &host, Verdict::Right)?)
}

#[test]
fn a_host_that_declares_nothing_has_kinds(rt: HostRuntime) {
    assert!(rt; holds(is_nothing_right(rt.alloc())));
}

#[test]
fn an_equation_has_the_kind_of_its_attribute(rt: HostRuntime) {
    assert!(rt; holds(has_verdict_by(rt.alloc(), Node::Int(7), Verdict::Right)));
    assert!(rt; holds(has_verdict_by(rt.alloc(), Node::Bool(true), Verdict::WrongKind(7))));
    assert!(rt; holds(has_verdict_by_call(rt.alloc(), Verdict::Unknown)));
}
