//! What do actions make of the parts of kinds, flow types, children and equations?
//!
//! Each does nothing more where a part is missing, which no reading meets. Expressions are in `expressions`, productions in `items`.

ghost use Rattle.std.specs.Prelude.{◌≡◌, OnOk};
ghost use Rattle.wb_syntax.specs.declared.expression.Target.TheVariants as g;
ghost use Rattle.wb_reader_builder.specs.Parts.{part_act, with_kind, with_named_kind, with_needs, with_listed, with_child, with_target, with_label_target, with_local_target, with_forwards_to, with_equation};

use crate::builder::{PlacedTarget, SpecBuilder};
use crate::stacks::{append, take_two};
use std::alloc::{AllocError, Global};
use wb_base::List;
use wb_syntax::{Child, Equation, NamedKind, Target};

/// What is done where a part of a kind, a flow type, a child or an equation is whole.
#[derive(Clone, Copy)]
pub enum PartAction {
    IntKind,
    BoolKind,
    TextKind,
    NameKind,
    NoNeeds,
    SomeNeeds,
    BeginNames,
    AddName,
    AddChild,
    BeginEquations,
    TopTarget,
    LabelTarget,
    ForwardTarget,
    LocalTarget,
    ForwardsToTarget,
    BeginNodes,
    AddEquation,
}

// What an action on kinds, flow types, children and equations does.
pub(crate) fn part_act(
    alloc: Global,
    action: PartAction,
    values: &mut SpecBuilder,
) -> Result<(), AllocError>
    ensures ok { OnOk result (values.new ≡ part_act action values.old) }
{
    match action {
        PartAction::IntKind => values.add_kind(NamedKind::Int),
        PartAction::BoolKind => values.add_kind(NamedKind::Bool),
        PartAction::TextKind => values.add_kind(NamedKind::Text),
        PartAction::NameKind => values.add_named_kind(),
        PartAction::NoNeeds => values.needs.push(None),
        PartAction::SomeNeeds => values.add_needs(),
        PartAction::BeginNames => values.lists.push(List::new(alloc)),
        PartAction::AddName => values.add_name(),
        PartAction::AddChild => values.add_child(),
        PartAction::BeginEquations => values.equations.push(List::new(alloc)),
        PartAction::TopTarget => values.begin_top(),
        PartAction::LabelTarget => values.begin_label(),
        PartAction::ForwardTarget => values.begin_forward(),
        PartAction::LocalTarget => values.begin_local(),
        PartAction::ForwardsToTarget => values.begin_forwards_to(),
        PartAction::BeginNodes => values.nodes.push(List::new(alloc)),
        PartAction::AddEquation => values.add_equation(),
    }
}

impl SpecBuilder {
    // A kind without a name was read.
    fn add_kind(&mut self, kind: NamedKind) -> Result<(), AllocError>
        ensures ok { OnOk result (self.new ≡ with_kind kind self.old) }
    {
        self.kinds.push(kind)
    }

    // The last name is a kind.
    fn add_named_kind(&mut self) -> Result<(), AllocError>
        ensures ok { OnOk result (self.new ≡ with_named_kind self.old) }
    {
        let Some(name) = self.names.pop() else {
            return Ok(());
        };
        self.kinds.push(NamedKind::Name(name.bytes))
    }

    // A flow type is whole.
    fn add_needs(&mut self) -> Result<(), AllocError>
        ensures ok { OnOk result (self.new ≡ with_needs self.old) }
    {
        let Some(names) = self.lists.pop() else {
            return Ok(());
        };
        self.needs.push(Some(names.into_sequence()))
    }

    // The last name goes to the end of its list.
    fn add_name(&mut self) -> Result<(), AllocError>
        ensures ok { OnOk result (self.new ≡ with_listed self.old) }
    {
        let Some(name) = self.names.pop() else {
            return Ok(());
        };
        append(&mut self.lists, name.bytes)
    }

    // A child is whole.
    fn add_child(&mut self) -> Result<(), AllocError>
        ensures ok { OnOk result (self.new ≡ with_child self.old) }
    {
        let Some(kind) = self.kinds.pop() else {
            return Ok(());
        };
        let Some(name) = self.names.pop() else {
            return Ok(());
        };
        let label = name.bytes;
        append(&mut self.children, Child { label, kind })
    }

    // An equation for an attribute of the top begins.
    fn begin_top(&mut self) -> Result<(), AllocError>
        ensures ok { OnOk result (self.new ≡ with_target (λ a. g.Top a) self.old) }
    {
        let Some(name) = self.names.pop() else {
            return Ok(());
        };
        let Some(at) = self.starts.pop() else {
            return Ok(());
        };
        let target = Target::Top(name.bytes);
        self.targets.push(PlacedTarget { target, at })
    }

    // An equation for an attribute of the forwarded tree begins.
    fn begin_forward(&mut self) -> Result<(), AllocError>
        ensures ok { OnOk result (self.new ≡ with_target (λ a. g.Forward a) self.old) }
    {
        let Some(name) = self.names.pop() else {
            return Ok(());
        };
        let Some(at) = self.starts.pop() else {
            return Ok(());
        };
        let target = Target::Forward(name.bytes);
        self.targets.push(PlacedTarget { target, at })
    }

    // An equation for an attribute of a child or local begins.
    fn begin_label(&mut self) -> Result<(), AllocError>
        ensures ok { OnOk result (self.new ≡ with_label_target self.old) }
    {
        let Some((label, attribute)) = take_two(&mut self.names) else {
            return Ok(());
        };
        let at = label.at;
        let target = Target::Label {
            label: label.bytes,
            attribute: attribute.bytes,
        };
        self.targets.push(PlacedTarget { target, at })
    }

    // An equation for a local begins.
    fn begin_local(&mut self) -> Result<(), AllocError>
        ensures ok { OnOk result (self.new ≡ with_local_target self.old) }
    {
        let Some((label, nonterminal)) = take_two(&mut self.names) else {
            return Ok(());
        };
        let Some(at) = self.starts.pop() else {
            return Ok(());
        };
        let target = Target::Local {
            label: label.bytes,
            nonterminal: nonterminal.bytes,
        };
        self.targets.push(PlacedTarget { target, at })
    }

    // An equation for the forwarded tree begins.
    fn begin_forwards_to(&mut self) -> Result<(), AllocError>
        ensures ok { OnOk result (self.new ≡ with_forwards_to self.old) }
    {
        let Some(at) = self.starts.pop() else {
            return Ok(());
        };
        let target = Target::ForwardsTo;
        self.targets.push(PlacedTarget { target, at })
    }

    // An equation is whole.
    fn add_equation(&mut self) -> Result<(), AllocError>
        ensures ok { OnOk result (self.new ≡ with_equation self.old) }
    {
        let Some(_) = self.roots.pop() else {
            return Ok(());
        };
        let Some(nodes) = self.nodes.pop() else {
            return Ok(());
        };
        let Some(target) = self.targets.pop() else {
            return Ok(());
        };
        let equation = Equation {
            offset: target.at,
            target: target.target,
            nodes: nodes.into_sequence(),
        };
        append(&mut self.equations, equation)
    }
}
