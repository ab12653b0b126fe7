//! What does an action make of the parts that are read?
//!
//! Actions are between the symbols of right sides. What each group of them does is in the file of what it is about.

ghost use Rattle.std.specs.Prelude.{◌≡◌, OnOk};
ghost use Rattle.wb_reader_builder.specs.Actions.{act};

use crate::builder::SpecBuilder;
use crate::expressions::{ExpressionAction, expression_act};
use crate::items::{ItemAction, item_act};
use crate::parts::{PartAction, part_act};
use std::alloc::{AllocError, Global};

/// What is done between the symbols of a right side, once what comes before is read.
#[derive(Clone, Copy)]
pub enum Action {
    Item(ItemAction),
    Part(PartAction),
    Expression(ExpressionAction),
}

/// What an action does.
pub fn act(alloc: Global, action: Action, values: &mut SpecBuilder) -> Result<(), AllocError>
    ensures ok { OnOk result (values.new ≡ act action values.old) }
{
    match action {
        Action::Item(action) => item_act(alloc, action, values),
        Action::Part(action) => part_act(alloc, action, values),
        Action::Expression(action) => expression_act(alloc, action, values),
    }
}
