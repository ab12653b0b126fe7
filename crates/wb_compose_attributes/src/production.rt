//! Builds a production in new numbers, with what extensions write on it.

ghost use Rattle.std.specs.Prelude.{◌≡◌, ◌+◌, ◌++◌, [], IfOk, OnOk, map, option_map};
ghost use Rattle.wb_compose_theory_attributes.specs.Rows as rows;
ghost use Rattle.wb_compose_attributes.specs.NewNumbers.{map_of};
ghost use Rattle.wb_compose_attributes.specs.Inner.Filled.{AreAdded, AreNone, AreRules, IsWritten, with_rules};
ghost use Rattle.wb_compose_attributes.specs.Inner.Written.{equations_by, locals_by, production_by, size_on, written, written_after};

use crate::placed::{Placed, sum};
use crate::written::{Writers, Writing, block_on, with_locals, writing_on};
use crate::{Numbers, new_children, new_equation, new_forward, new_left, new_local, new_owner};
use std::alloc::{AllocError, Global};
use wb_base::{Bytes, Sequence, push};
use wb_syntax_resolved::{Child, Equation, Forward, Local, Production};

// A production in new numbers, with what is written on it besides.
pub(crate) fn new_production(
    alloc: Global,
    numbers: &Numbers,
    writers: &Writers,
) -> Result<Production, AllocError>
    ensures { IfOk result (λ made. made ≡ production_by numbers.now writers.now.on.row.now (written writers.now)) }
{
    let mut rules = Rules {
        locals: Vec::new(alloc),
        forward: None,
        equations: Vec::new(alloc),
    };
    add_rules(alloc, &mut rules, numbers, writers)?;
    production_of(alloc, numbers, writers.on.row, rules)
}

// Its locals, what it forwards to, and its equations. They are made in place, so that a failure has one thing to drop.
#[derive(Drop)]
struct Rules {
    locals: Vec<Local>,
    forward: Option<Forward>,
    equations: Vec<Equation>,
}

// Adds its own, and then those that are written on it.
fn add_rules(
    alloc: Global,
    rules: &mut Rules,
    numbers: &Numbers,
    writers: &Writers,
) -> Result<(), AllocError>
    requires { AreNone rules.old }
    ensures { OnOk result (AreRules numbers.now writers.now.on.row.now (written writers.now) rules.new) }
{
    add_own(alloc, rules, numbers, writers.on.row)?;
    let mut before = 0;
    'placed: for extension in writers.placed {
        before = add_written(alloc, rules, writers, extension, before)?;
    }
    Ok(())
}

fn add_own(
    alloc: Global,
    rules: &mut Rules,
    numbers: &Numbers,
    row: &Production,
) -> Result<(), AllocError>
    requires { AreNone rules.old }
    ensures { OnOk result (AreRules numbers.now row.now [] rules.new) }
{
    rules.forward = forward_of(alloc, numbers, &row.forward)?;
    let own = Writing {
        locals: row.locals.as_slice(),
        equations: row.equations.as_slice(),
    };
    add_parts(alloc, rules, numbers, &own)?;
    Ok(())
}

fn forward_of(
    alloc: Global,
    numbers: &Numbers,
    forward: &Option<Forward>,
) -> Result<Option<Forward>, AllocError>
    ensures { IfOk result (λ made. made ≡ option_map (rows.new_forward (map_of numbers.now) 0) forward.now) }
{
    match forward {
        Some(forward) => Ok(Some(new_forward(alloc, numbers, forward)?)),
        None => Ok(None),
    }
}

// Adds what an extension writes, where those before it write so many locals. Returns how many come before the next one's.
fn add_written(
    alloc: Global,
    rules: &mut Rules,
    writers: &Writers,
    extension: &Placed,
    before: usize,
) -> Result<usize, AllocError>
    ensures rules { OnOk result (IsWritten (written_after writers.now before extension.now) rules.old rules.new) }
    ensures next { IfOk result (λ next. next ≡ before + size_on writers.now extension.now) }
{
    let writing = writing_on(&writers.on, &extension.addition);
    let next = sum(before, writing.locals.len())?;
    let local = block_on(writers, before, writing.locals.len());
    let numbers = with_locals(&extension.numbers, local);
    add_parts(alloc, rules, &numbers, &writing)?;
    Ok(next)
}

// Adds locals and equations in new numbers.
fn add_parts(
    alloc: Global,
    rules: &mut Rules,
    numbers: &Numbers,
    parts: &Writing,
) -> Result<(), AllocError>
    ensures { OnOk result (AreAdded numbers.now parts.now rules.old rules.new) }
{
    add_locals(alloc, &mut rules.locals, numbers, parts.locals)?;
    add_equations(alloc, &mut rules.equations, numbers, parts.equations)?;
    Ok(())
}

fn add_locals(
    alloc: Global,
    made: &mut Vec<Local>,
    numbers: &Numbers,
    rows: &[Local],
) -> Result<(), AllocError>
    ensures { OnOk result (made.new.items ≡ made.old.items ++ locals_by numbers.now rows.now) }
{
    'rows: for row in rows {
        let next = new_local(alloc, numbers, row)?;
        push(made, next)?;
    }
    Ok(())
}

fn add_equations(
    alloc: Global,
    made: &mut Vec<Equation>,
    numbers: &Numbers,
    rows: &[Equation],
) -> Result<(), AllocError>
    ensures { OnOk result (made.new.items ≡ made.old.items ++ equations_by numbers.now rows.now) }
{
    'rows: for row in rows {
        let next = new_equation(alloc, numbers, row)?;
        push(made, next)?;
    }
    Ok(())
}

// The production with these rules.
fn production_of(
    alloc: Global,
    numbers: &Numbers,
    row: &Production,
    rules: Rules,
) -> Result<Production, AllocError>
    ensures { IfOk result (λ made. made ≡ with_rules (production_by numbers.now row.now []) rules.locals.items rules.forward rules.equations.items) }
{
    let head = head_of(alloc, numbers, row)?;
    Ok(Production {
        name: head.name,
        owner: new_owner(numbers, row.owner),
        role: row.role,
        left: head.left,
        children: head.children,
        locals: Sequence::from_vec(rules.locals),
        forward: rules.forward,
        equations: Sequence::from_vec(rules.equations),
    })
}

// Its left side, its name and its children.
#[derive(Drop)]
struct Head {
    left: usize,
    name: Bytes,
    children: Sequence<Child>,
}

fn head_of(alloc: Global, numbers: &Numbers, row: &Production) -> Result<Head, AllocError>
    ensures left { IfOk result (λ head. head.left ≡ (map_of numbers.now).nonterminal row.now.left) }
    ensures name { IfOk result (λ head. head.name ≡ row.now.name) }
    ensures children { IfOk result (λ head. head.children ≡ map (rows.new_child (map_of numbers.now)) row.now.children) }
{
    let left = new_left(numbers, row.left)?;
    let name = row.name.copy()?;
    let children = new_children(alloc, numbers, row.children.as_slice())?;
    Ok(Head {
        left,
        name,
        children,
    })
}
