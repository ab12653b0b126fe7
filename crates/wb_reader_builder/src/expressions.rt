//! What do actions make of the parts of expressions?
//!
//! Each does nothing more where a part is missing, which no reading meets. The nodes of an expression are a list in which parts come
//! before the whole.

ghost use Rattle.std.specs.Prelude.{◌≡◌, OnOk};
ghost use Rattle.wb_syntax_expressions.specs.declared.node.Node.TheVariants as n;
ghost use Rattle.wb_reader_builder.specs.Expressions.{expression_act, with_node, with_number, with_string, with_label, with_read, with_placed_read, with_argument, with_call, with_if};

use crate::builder::SpecBuilder;
use crate::stacks::{append, append_at, take_two};
use std::alloc::{AllocError, Global};
use wb_base::List;
use wb_syntax::Node;

/// What is done where a part of an expression is whole.
#[derive(Clone, Copy)]
pub enum ExpressionAction {
    Number,
    String,
    True,
    False,
    ReadTop,
    ReadForward,
    BeginArguments,
    Call,
    If,
    Label,
    Build,
    Read,
    Lexeme,
    AddArgument,
}

// What an action on expressions does.
pub(crate) fn expression_act(
    alloc: Global,
    action: ExpressionAction,
    values: &mut SpecBuilder,
) -> Result<(), AllocError>
    ensures ok { OnOk result (values.new ≡ expression_act action values.old) }
{
    match action {
        ExpressionAction::Number => values.add_number(),
        ExpressionAction::String => values.add_string(),
        ExpressionAction::True => values.add_node(Node::Bool(true)),
        ExpressionAction::False => values.add_node(Node::Bool(false)),
        ExpressionAction::ReadTop => values.add_top(),
        ExpressionAction::ReadForward => values.add_forward(),
        ExpressionAction::BeginArguments => values.arguments.push(List::new(alloc)),
        ExpressionAction::Call => values.add_call(),
        ExpressionAction::If => values.add_if(),
        ExpressionAction::Label => values.add_label(),
        ExpressionAction::Build => values.add_build(),
        ExpressionAction::Read => values.add_read(),
        ExpressionAction::Lexeme => values.add_lexeme(),
        ExpressionAction::AddArgument => values.add_argument(),
    }
}

impl SpecBuilder {
    // The node goes after the others of its expression.
    fn add_node(&mut self, node: Node) -> Result<(), AllocError>
        ensures ok { OnOk result (self.new ≡ with_node node self.old) }
    {
        let Some(place) = append_at(&mut self.nodes, node)? else {
            return Ok(());
        };
        self.roots.push(place)
    }

    // The last integer is a part.
    fn add_number(&mut self) -> Result<(), AllocError>
        ensures ok { OnOk result (self.new ≡ with_number self.old) }
    {
        let Some(value) = self.integers.pop() else {
            return Ok(());
        };
        self.add_node(Node::Int(value))
    }

    // The last string is a part.
    fn add_string(&mut self) -> Result<(), AllocError>
        ensures ok { OnOk result (self.new ≡ with_string self.old) }
    {
        let Some(text) = self.texts.pop() else {
            return Ok(());
        };
        self.add_node(Node::Text(text))
    }

    // The last name is a part.
    fn add_label(&mut self) -> Result<(), AllocError>
        ensures ok { OnOk result (self.new ≡ with_label (λ l. n.Label l) self.old) }
    {
        let Some(name) = self.names.pop() else {
            return Ok(());
        };
        self.add_node(Node::Label(name.bytes))
    }

    // The text of the child of the last name is a part.
    fn add_lexeme(&mut self) -> Result<(), AllocError>
        ensures ok { OnOk result (self.new ≡ with_label (λ l. n.Lexeme l) self.old) }
    {
        let Some(name) = self.names.pop() else {
            return Ok(());
        };
        self.add_node(Node::Lexeme(name.bytes))
    }

    // An attribute of a child or local is a part.
    fn add_read(&mut self) -> Result<(), AllocError>
        ensures ok { OnOk result (self.new ≡ with_read self.old) }
    {
        let Some((label, attribute)) = take_two(&mut self.names) else {
            return Ok(());
        };
        self.add_node(Node::Read {
            label: label.bytes,
            attribute: attribute.bytes,
        })
    }

    // An attribute of the top is a part.
    fn add_top(&mut self) -> Result<(), AllocError>
        ensures ok { OnOk result (self.new ≡ with_placed_read (λ a. n.Top a) self.old) }
    {
        let Some(_) = self.starts.pop() else {
            return Ok(());
        };
        let Some(name) = self.names.pop() else {
            return Ok(());
        };
        self.add_node(Node::Top(name.bytes))
    }

    // An attribute of the forwarded tree is a part.
    fn add_forward(&mut self) -> Result<(), AllocError>
        ensures ok { OnOk result (self.new ≡ with_placed_read (λ a. n.Forward a) self.old) }
    {
        let Some(_) = self.starts.pop() else {
            return Ok(());
        };
        let Some(name) = self.names.pop() else {
            return Ok(());
        };
        self.add_node(Node::Forward(name.bytes))
    }

    // The last part is an argument.
    fn add_argument(&mut self) -> Result<(), AllocError>
        ensures ok { OnOk result (self.new ≡ with_argument self.old) }
    {
        let Some(root) = self.roots.pop() else {
            return Ok(());
        };
        append(&mut self.arguments, root)
    }

    // A tree of a production is a part.
    fn add_build(&mut self) -> Result<(), AllocError>
        ensures ok { OnOk result (self.new ≡ with_call (λ name list. n.Build name list) self.old) }
    {
        let Some(arguments) = self.arguments.pop() else {
            return Ok(());
        };
        let Some(name) = self.names.pop() else {
            return Ok(());
        };
        self.add_node(Node::Build {
            production: name.bytes,
            children: arguments.into_sequence(),
        })
    }

    // The result of an operation is a part.
    fn add_call(&mut self) -> Result<(), AllocError>
        ensures ok { OnOk result (self.new ≡ with_call (λ name list. n.Call name list) self.old) }
    {
        let Some(arguments) = self.arguments.pop() else {
            return Ok(());
        };
        let Some(name) = self.names.pop() else {
            return Ok(());
        };
        self.add_node(Node::Call {
            operation: name.bytes,
            arguments: arguments.into_sequence(),
        })
    }

    // A choice is a part.
    fn add_if(&mut self) -> Result<(), AllocError>
        ensures ok { OnOk result (self.new ≡ with_if self.old) }
    {
        let Some(fails) = self.roots.pop() else {
            return Ok(());
        };
        let Some(holds) = self.roots.pop() else {
            return Ok(());
        };
        let Some(condition) = self.roots.pop() else {
            return Ok(());
        };
        self.add_node(Node::If {
            condition,
            holds,
            fails,
        })
    }
}
