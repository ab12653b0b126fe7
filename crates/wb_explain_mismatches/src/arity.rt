//! Which call in an expression has another number of arguments than it takes?

ghost use Rattle.std.specs.Prelude.{◌≡◌, ◌≢◌, IfSome, length, List};
ghost use Rattle.wb_base.specs.declared.symbol.Kind.{Kind};
ghost use Rattle.wb_explain_mismatches.specs.Wrong.{HasChildren, TakesKinds};
ghost use Rattle.wb_explain_mismatches.specs.Inner.Counts.{IsMiscounted, IsWrongCountAt};

use crate::context::Context;
use wb_operations::OperationSignatures;
use wb_syntax_resolved::Node;
use wb_values::Signatures;

// A call: its place among the nodes, and how many arguments it takes.
#[derive(Clone, Copy)]
pub(crate) struct Miscount {
    pub(crate) at: usize,
    pub(crate) takes: usize,
}

// The first call that has another number of arguments than it takes.
pub(crate) fn find_miscount(context: &Context<'_>, nodes: &[Node]) -> Option<Miscount>
    ensures { IfSome result (IsMiscounted context.now.attributes.now context.now.operations.now nodes.now) }
{
    'nodes: for at in 0..nodes.len() {
        if let Some(takes) = takes_other(context, &nodes[at]) {
            return Some(Miscount { at, takes });
        }
    }
    None
}

// How many arguments a node takes, where it has another number.
fn takes_other(context: &Context<'_>, node: &Node) -> Option<usize>
    ensures { IfSome result (IsWrongCountAt context.now.attributes.now context.now.operations.now node.now) }
{
    match node {
        Node::Build {
            production,
            children,
        } => other_children(&context.attributes.signatures, *production, children.len()),
        Node::Call {
            operation,
            arguments,
        } => other_arguments(context.operations, operation.as_slice(), arguments.len()),
        _ => None,
    }
}

// How many children a production has, where that is another number.
fn other_children(signatures: &Signatures, production: usize, count: usize) -> Option<usize>
    ensures { IfSome result (λ takes. (kinds : List Kind) × HasChildren signatures.now production kinds × (length kinds ≡ takes) × (count ≢ takes)) }
{
    if production >= signatures.len() {
        return None;
    }
    let takes = signatures.children(production).len();
    if count == takes {
        return None;
    }
    Some(takes)
}

// How many arguments an operation takes, where that is another number.
fn other_arguments(operations: &OperationSignatures, name: &[u8], count: usize) -> Option<usize>
    ensures { IfSome result (λ takes. (kinds : List Kind) × TakesKinds operations.now name.now kinds × (length kinds ≡ takes) × (count ≢ takes)) }
{
    let number = operations.find(name)?;
    let takes = operations.takes(number).len();
    if count == takes {
        return None;
    }
    Some(takes)
}
