//! Builds the rows of the productions of a base and of a file.
//!
//! Concrete ones are kept apart, since they are numbered first. The row of one production is made in `production`.

ghost use Rattle.std.specs.Prelude.{◌≡◌, [], IfOk, OnOk};
ghost use Rattle.wb_names_theory.specs.Declarations.{productions};
ghost use Rattle.wb_names_rows.specs.Row.{row_of};
ghost use Rattle.wb_names.specs.Inner.Bodies.{IsContext, file_of};
ghost use Rattle.wb_names.specs.Inner.Now.{IsDeclaredNow, IsExtendedNow};
ghost use Rattle.wb_names.specs.Inner.Productions.{AreProductions};
ghost use Rattle.wb_names.specs.Inner.Rows.{AddsProductions, AddsRow, declares_concrete, has_concrete};

use crate::production::{Context, add_extended, add_own};
use std::alloc::{AllocError, Global};
use wb_names_rows::body::Body;
use wb_names_rows::row::{Head, add_row};
use wb_names_symbols::joined::join;
use wb_syntax::ItemForm;
use wb_syntax_resolved::{Production, ProductionRole};

// The concrete ones, and the others.
#[derive(Drop)]
pub(crate) struct Productions {
    pub(crate) concrete: Vec<Production>,
    pub(crate) others: Vec<Production>,
}

// Adds the rows of a file's and its base's productions to none, in one list, and answers how many are concrete.
pub(crate) fn add_productions(
    alloc: Global,
    context: &Context,
    made: &mut Productions,
) -> Result<usize, AllocError>
    requires context { IsContext context.now }
    requires concrete { made.old.concrete.items ≡ [] }
    requires others { made.old.others.items ≡ [] }
    ensures { IfOk result (λ count. AreProductions (file_of context.now) context.now.scope.now context.now.moves.now count made.new.concrete.items) }
{
    add_base(alloc, context, made)?;
    add_declared(alloc, context, made)?;
    join(&mut made.concrete, &mut made.others)
}

// Adds those of the base.
fn add_base(alloc: Global, context: &Context, made: &mut Productions) -> Result<(), AllocError>
    requires { IsContext context.now }
    ensures { OnOk result (AddsProductions has_concrete (IsExtendedNow (file_of context.now) context.now.scope.now context.now.moves.now) context.now.file.base.now.attributes.productions made.old made.new) }
{
    let productions = context.file.base.attributes.parts().productions.as_slice();
    for production in productions {
        add_extended(alloc, context, production, made)?;
    }
    Ok(())
}

// Adds those that the file declares.
fn add_declared(alloc: Global, context: &Context, made: &mut Productions) -> Result<(), AllocError>
    requires { IsContext context.now }
    ensures { OnOk result (AddsProductions declares_concrete (IsDeclaredNow (file_of context.now) context.now.scope.now context.now.moves.now) (productions context.now.file.items.now) made.old made.new) }
{
    for item in context.file.items {
        let ItemForm::Production { role, production } = &item.form else {
            continue;
        };
        add_own(alloc, context, *role, production, made)?;
    }
    Ok(())
}

// Adds one, by its parts.
pub(crate) fn add(head: Head, body: Body, made: &mut Productions) -> Result<(), AllocError>
    ensures { OnOk result (AddsRow (row_of head body) made.old made.new) }
{
    match head.role {
        ProductionRole::Concrete => add_row(head, body, &mut made.concrete),
        ProductionRole::Abstract => add_row(head, body, &mut made.others),
    }
}
