//! How is an expression evaluated without choosing anew at each step what is next?
//!
//! By code: an instruction for each node, in the order of nodes, on a stack of values. Parts come before their node, so the code goes
//! from left to right, and leaves out the branch that isn't chosen. Where code is found is in `codes`.

ghost use Rattle.std.specs.Prelude.{◌≡◌, ◌++◌, ◌∷◌, ◌<◌, [], length, OnOk, IfOk};
ghost use Rattle.wb_eval_rules.specs.Code.{IsCodeOf, job_of, instructions, does, next};
ghost use Rattle.wb_eval_rules.specs.Code as code;
ghost use Rattle.wb_eval_rules.specs.Inner.Emitted.{job_at, after_node, set_way};

use std::alloc::{AllocError, Global};
use wb_base::{Bytes, Sequence};
use wb_operations::OperationSignatures;
use wb_syntax_resolved::{Node, Place};

/// What an instruction does.
#[derive(Drop)]
pub enum Task {
    /// It pushes a number.
    Int(i64),
    /// It pushes a text.
    Text(Bytes),
    /// It pushes a truth value.
    Bool(bool),
    /// It pushes a child, or reads the tree of a local.
    Label(Place),
    /// It reads an attribute of a child or local.
    Read {
        /// The child or local.
        label: Place,
        /// The attribute.
        attribute: usize,
    },
    /// It pushes the text of a child.
    Lexeme(Place),
    /// It reads an attribute of the top.
    Top(usize),
    /// It reads an attribute of the forwarded tree.
    Forward(usize),
    /// It makes a tree of the last values.
    Build {
        /// The production.
        production: usize,
        /// How many values.
        count: usize,
    },
    /// It calls an operation on the last values.
    Call {
        /// The operation.
        operation: usize,
        /// How many values.
        count: usize,
    },
    /// It leaves the value that is on top.
    Stay,
}

/// Where code goes on after an instruction.
#[derive(Clone, Copy)]
pub enum After {
    /// At the next instruction.
    Next,
    /// After so many that are left out.
    Skip(usize),
    /// At the next where the last value is true, which is taken away, and else after so many that are left out.
    Unless(usize),
}

/// An instruction.
#[derive(Drop)]
pub struct Op {
    /// What it does.
    pub task: Task,
    /// Where the code goes on.
    pub after: After,
}

/// The code of the expression that these nodes are.
pub fn compile(
    alloc: Global,
    signatures: &OperationSignatures,
    nodes: &[Node],
) -> Result<Vec<Op>, AllocError>
    ensures { IfOk result (λ ops. IsCodeOf signatures.now nodes.now ops.items) }
{
    let mut ops = Vec::new(alloc);
    'nodes: for node in nodes {
        emit(signatures, &mut ops, node)?;
    }
    Ok(ops)
}

// Adds the instruction of a node. Those of a condition and of the branch before the other go on elsewhere then.
fn emit(signatures: &OperationSignatures, ops: &mut Vec<Op>, node: &Node) -> Result<(), AllocError>
    ensures { OnOk result (instructions ops.new.items ≡ after_node node.now (instructions ops.old.items ++ does (job_at signatures.now node.now) next ∷ [])) }
{
    ops.reserve(1)?;
    let task = task_of(signatures, node)?;
    ops.push_reserved(Op {
        task,
        after: After::Next,
    });
    if let Node::If {
        condition,
        holds,
        fails,
    } = node
    {
        go_on(
            ops,
            *condition,
            After::Unless(holds.saturating_sub(*condition)),
        );
        go_on(ops, *holds, After::Skip(fails.saturating_sub(*holds)));
    }
    Ok(())
}

// What the instruction of a node does.
fn task_of(signatures: &OperationSignatures, node: &Node) -> Result<Task, AllocError>
    ensures { IfOk result (λ task. job_of task ≡ job_at signatures.now node.now) }
{
    Ok(match node {
        Node::Int(number) => Task::Int(*number),
        Node::Text(text) => Task::Text(text.copy()?),
        Node::Bool(truth) => Task::Bool(*truth),
        Node::Label(place) => Task::Label(*place),
        Node::Read { label, attribute } => Task::Read {
            label: *label,
            attribute: *attribute,
        },
        Node::Lexeme(place) => Task::Lexeme(*place),
        Node::Top(attribute) => Task::Top(*attribute),
        Node::Forward(attribute) => Task::Forward(*attribute),
        Node::Build {
            production,
            children,
        } => Task::Build {
            production: *production,
            count: children.len(),
        },
        Node::Call {
            operation,
            arguments,
        } => Task::Call {
            operation: number_of(signatures, operation),
            count: arguments.len(),
        },
        Node::If { .. } => Task::Stay,
    })
}

// The number of an operation, or 0 where none has the name.
fn number_of(signatures: &OperationSignatures, operation: &Bytes) -> usize
    ensures { result ≡ code.number_in signatures.now operation.now }
{
    match signatures.find(operation.as_slice()) {
        Some(number) => number,
        None => 0,
    }
}

// Changes where the code goes on after an instruction.
fn go_on(ops: &mut Vec<Op>, at: usize, after: After)
    ensures { instructions ops.new.items ≡ set_way (instructions ops.old.items) at (code.way_of after) }
{
    if at < ops.len() {
        ops[at].after = after;
    }
}
