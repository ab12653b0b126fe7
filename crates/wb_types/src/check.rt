//! Is each expression of the kind that its place asks for?
//!
//! Each rule is tested on all expressions before the next, so the first that fails is the answer. The kinds of nodes are in `kinds`.

ghost use Rattle.std.specs.Prelude.{◌≡◌, ◌↔◌, Some, IfOk, IfErr, IsTrue, All, Contains};
ghost use Rattle.wb_base.specs.declared.symbol.Kind.{Kind};
ghost use Rattle.wb_base.specs.declared.symbol.Kind.TheVariants.{Tree};
ghost use Rattle.wb_syntax_expressions.specs.Expression.{IsWhole};
ghost use Rattle.wb_syntax_resolved.specs.declared.equation.Equation.{Equation};
ghost use Rattle.wb_syntax_resolved.specs.declared.production.Forward.{Forward};
ghost use Rattle.wb_syntax_resolved.specs.declared.production.Local.{Local};
ghost use Rattle.wb_syntax_resolved.specs.declared.production.Production.{Production};
ghost use Rattle.wb_syntax_resolved.specs.Attribution.{IsAttribution};
ghost use Rattle.wb_syntax_resolved.specs.Named.{IsNamedProduction};
ghost use Rattle.wb_types.specs.Expected.{attribute_of};
ghost use Rattle.wb_types.specs.Kinds.{IsAttributeKind};
ghost use Rattle.wb_types.specs.Refusals.{IsTrueRefusal};
ghost use Rattle.wb_types.specs.Rules.{KindsOk, IsKnown, HasArity};
ghost use Rattle.wb_types.specs.Inner.Passes.{Passes, FailsKnown, Fails, AllPass, SomeFails, AnyFails};

use crate::TypeRefusal;
use crate::context::{Context, Rule};
use crate::kinds::{attribute_kind, has_kind};
use std::alloc::Global;
use wb_base::Kind;
use wb_operations::{Meaning, OperationSignatures, OperationTable};
use wb_syntax_resolved::{AttributionParts, Node, Resolved, Target};

/// Whether each expression of a resolved specification is of the kind that its place asks for, over a table of operations.
///
/// A literal has its kind; a plain child, a local, an attribute and an operation have their declared kinds; a lexeme is a text; a call of
/// a production has the kind of its left side, and its arguments have the kinds of the children, where a terminal child wants a text. The
/// condition of an `if` is a truth value, and both branches have the kind of the whole. An equation's expression has the kind of its
/// attribute or local, and what is forwarded to is a tree of the left side. Rules are tested one after the other, each on all
/// expressions. No clause bounds the time; it is about linear in the specification.
pub fn check_types<M: Meaning>(
    alloc: Global,
    resolved: &Resolved,
    operations: &OperationTable<M>,
) -> Result<(), TypeRefusal>
    ensures ok { IfOk result (λ done. KindsOk resolved.now.attributes operations.now.signatures) }
    ensures refused { IfErr result (IsTrueRefusal resolved.now.attributes operations.now.signatures) }
{
    check_kinds(
        alloc,
        resolved.parts().attributes.parts(),
        operations.signatures(),
    )
}

// Like `check_types`, by the signatures of the operations.
fn check_kinds(
    alloc: Global,
    attributes: &AttributionParts,
    operations: &OperationSignatures,
) -> Result<(), TypeRefusal>
    requires { IsAttribution attributes.now }
    ensures ok { IfOk result (λ done. KindsOk attributes.now operations.now) }
    ensures refused { IfErr result (IsTrueRefusal attributes.now operations.now) }
{
    check_rule(alloc, Rule::Known, attributes, operations)?;
    check_rule(alloc, Rule::Arity, attributes, operations)?;
    check_rule(alloc, Rule::Kind, attributes, operations)
}

// Whether all expressions pass a rule.
fn check_rule(
    alloc: Global,
    rule: Rule,
    attributes: &AttributionParts,
    operations: &OperationSignatures,
) -> Result<(), TypeRefusal>
    requires { IsAttribution attributes.now }
    ensures ok { IfOk result (λ done. (production : Production) → Contains attributes.now.productions production → AllPass rule attributes.now operations.now production) }
    ensures refused { IfErr result (AnyFails rule attributes.now operations.now) }
{
    'productions: for production in attributes.productions.as_slice() {
        let context = Context {
            rule,
            attributes,
            operations,
            production,
        };
        check_trees(alloc, &context)?;
        check_equations(alloc, &context)?;
    }
    Ok(())
}

// Whether the expressions of a production's locals and of what it forwards to pass: each has to be a tree.
fn check_trees(alloc: Global, context: &Context) -> Result<(), TypeRefusal>
    requires { IsNamedProduction context.now.attributes.now context.now.production.now }
    ensures locals { IfOk result (λ done. (l : Local) → Contains context.now.production.now.locals l → Passes context.now.rule context.now.attributes.now context.now.operations.now context.now.production.now l.nodes (Tree l.nonterminal)) }
    ensures forward { IfOk result (λ done. (f : Forward) → context.now.production.now.forward ≡ Some f → Passes context.now.rule context.now.attributes.now context.now.operations.now context.now.production.now f.nodes (Tree context.now.production.now.left)) }
    ensures refused { IfErr result (SomeFails context.now.rule context.now.attributes.now context.now.operations.now context.now.production.now) }
{
    'locals: for local in context.production.locals.as_slice() {
        let kind = Kind::Tree(local.nonterminal);
        check_expression(alloc, context, local.nodes.as_slice(), kind, local.offset)?;
    }
    let Some(forward) = &context.production.forward else {
        return Ok(());
    };
    let kind = Kind::Tree(context.production.left);
    check_expression(
        alloc,
        context,
        forward.nodes.as_slice(),
        kind,
        forward.offset,
    )
}

// Whether the expressions of its equations do.
fn check_equations(alloc: Global, context: &Context) -> Result<(), TypeRefusal>
    requires { IsNamedProduction context.now.attributes.now context.now.production.now }
    ensures ok { IfOk result (λ done. (e : Equation) (is : Kind) → Contains context.now.production.now.equations e → IsAttributeKind context.now.attributes.now (attribute_of e.target) is → Passes context.now.rule context.now.attributes.now context.now.operations.now context.now.production.now e.nodes is) }
    ensures refused { IfErr result (SomeFails context.now.rule context.now.attributes.now context.now.operations.now context.now.production.now) }
{
    'equations: for equation in context.production.equations.as_slice() {
        let Some(kind) = target_kind(context.attributes, equation.target) else {
            continue;
        };
        check_expression(
            alloc,
            context,
            equation.nodes.as_slice(),
            kind,
            equation.offset,
        )?;
    }
    Ok(())
}

// The kind of the attribute that an equation is for.
fn target_kind(attributes: &AttributionParts, target: Target) -> Option<Kind>
    ensures { (is : Kind) → (result ≡ Some is) ↔ IsAttributeKind attributes.now (attribute_of target) is }
{
    match target {
        Target::Top(attribute) | Target::Place { attribute, .. } | Target::Forward(attribute) => {
            attribute_kind(attributes, attribute)
        }
    }
}

// Whether an expression passes the rule, where its equation begins at this offset and asks for this kind.
fn check_expression(
    alloc: Global,
    context: &Context,
    nodes: &[Node],
    kind: Kind,
    offset: usize,
) -> Result<(), TypeRefusal>
    requires { IsWhole nodes.now }
    ensures ok { IfOk result (λ done. Passes context.now.rule context.now.attributes.now context.now.operations.now context.now.production.now nodes.now kind) }
    ensures refused { IfErr result (Fails context.now.rule context.now.attributes.now context.now.operations.now context.now.production.now nodes.now kind offset) }
{
    match context.rule {
        Rule::Known => check_known(context.operations, nodes),
        Rule::Arity => {
            if !have_arities(context, nodes) {
                return Err(TypeRefusal::WrongArity(offset));
            }
            Ok(())
        }
        Rule::Kind => {
            if !has_kind(alloc, context, nodes, kind)? {
                return Err(TypeRefusal::TypeMismatch(offset));
            }
            Ok(())
        }
    }
}

// Whether each operation that the nodes call is in the table.
fn check_known(operations: &OperationSignatures, nodes: &[Node]) -> Result<(), TypeRefusal>
    ensures ok { IfOk result (λ done. All (IsKnown operations.now) nodes.now) }
    ensures refused { IfErr result (FailsKnown operations.now nodes.now) }
{
    'nodes: for node in nodes {
        let Node::Call { operation, .. } = node else {
            continue;
        };
        let Some(_) = operations.find(operation.as_slice()) else {
            return Err(TypeRefusal::UnknownOperation(operation.copy()?));
        };
    }
    Ok(())
}

// Whether each node has the right number of arguments.
fn have_arities(context: &Context, nodes: &[Node]) -> bool
    ensures { IsTrue result ↔ All (HasArity context.now.attributes.now context.now.operations.now) nodes.now }
{
    'nodes: for node in nodes {
        if !has_arity(context, node) {
            return false;
        }
    }
    true
}

// Whether a node has the right number of arguments. Of what isn't there, any number is right.
fn has_arity(context: &Context, node: &Node) -> bool
    ensures { IsTrue result ↔ HasArity context.now.attributes.now context.now.operations.now node.now }
{
    match node {
        Node::Build {
            production,
            children,
        } => {
            let signatures = &context.attributes.signatures;
            *production >= signatures.len()
                || signatures.children(*production).len() == children.len()
        }
        Node::Call {
            operation,
            arguments,
        } => match context.operations.find(operation.as_slice()) {
            None => true,
            Some(number) => context.operations.takes(number).len() == arguments.len(),
        },
        _ => true,
    }
}
