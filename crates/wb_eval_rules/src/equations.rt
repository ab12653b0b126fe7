//! Which expression of a production defines what?
//!
//! Equations are found by number, in tables that are made once. The tables of all productions are in `index`.

ghost use Rattle.std.specs.Prelude.{◌≡◌, ◌≢◌, ◌<◌, ◌≤◌, List, [], length, slice_get, Some, OnOk, IfOk, IfSome, IfNone};
ghost use Rattle.wb_flow_theory.specs.Rules.{HasRule, target_vertex};
ghost use Rattle.wb_flow_theory.specs.Vertices.{local, forward, tree_of};
ghost use Rattle.wb_syntax_resolved.specs.declared.equation.Target.{Target};
ghost use Rattle.wb_operations.specs.Operations.{OperationSignature};
ghost use Rattle.wb_eval_rules.specs.Codes.{IsCoded, HasCode};
ghost use Rattle.wb_eval_rules.specs.Indexes.{number_for, IsIndexOf};
ghost use Rattle.wb_eval_rules.specs.Inner.Found.{AreFound};

use crate::code::Op;
use crate::codes::Codes;
use std::alloc::{AllocError, Global};
use wb_eval_rows::SparseRows;
use wb_syntax_resolved::{Place, Production, Target};

/// The equations of a production by what they are for, as numbers from 1 on.
pub struct Equations {
    /// Those for attributes of the top, in row 0, by attribute.
    pub tops: SparseRows,
    /// Those for attributes of the forwarded tree, in row 0, by attribute.
    pub forwards: SparseRows,
    /// Those for attributes of children, by child and attribute.
    pub children: SparseRows,
    /// Those for attributes of locals, by local and attribute.
    pub locals: SparseRows,
}

/// A production, with its equations by what they are for, and the code of its expressions.
#[derive(Clone, Copy)]
pub struct Rules<'a> {
    /// The production.
    pub production: &'a Production,
    /// Its equations.
    pub equations: &'a Equations,
    /// Its code.
    pub codes: &'a Codes,
}

/// The code of the equation for a target. Takes constant time.
#[inline(always)]
pub fn equation_for<'a>(rules: &Rules<'a>, target: Target) -> Option<&'a [Op]>
    requires index { IsIndexOf rules.now.production.now.equations (length rules.now.production.now.equations) rules.now.equations.now }
    requires coded { (signatures : List OperationSignature) × IsCoded signatures rules.now.production.now rules.now.codes.now }
    ensures some { (signatures : List OperationSignature) → IsCoded signatures rules.now.production.now rules.now.codes.now
        → IfSome result (λ code. HasCode signatures rules.now.production.now (target_vertex target) code.now) }
    ensures none { IfNone result (¬ HasRule rules.now.production.now (target_vertex target)) }
{
    let number = rules.equations.get(target);
    if number == 0 {
        None
    } else {
        Some(rules.codes.equations[number - 1].ops.as_slice())
    }
}

/// The code of the tree of a local.
#[inline]
pub fn local_code<'a>(rules: &Rules<'a>, x: usize) -> Option<&'a [Op]>
    requires { (signatures : List OperationSignature) × IsCoded signatures rules.now.production.now rules.now.codes.now }
    ensures some { (signatures : List OperationSignature) → IsCoded signatures rules.now.production.now rules.now.codes.now
        → IfSome result (λ code. HasCode signatures rules.now.production.now (tree_of (local x)) code.now) }
    ensures none { IfNone result (¬ HasRule rules.now.production.now (tree_of (local x))) }
{
    if x < rules.codes.locals.len() {
        Some(rules.codes.locals[x].ops.as_slice())
    } else {
        None
    }
}

/// The code of the forwarded tree.
#[inline]
pub fn forward_code<'a>(rules: &Rules<'a>) -> Option<&'a [Op]>
    ensures some { (signatures : List OperationSignature) → IsCoded signatures rules.now.production.now rules.now.codes.now
        → IfSome result (λ code. HasCode signatures rules.now.production.now (tree_of forward) code.now) }
    ensures none { IfNone result (¬ HasRule rules.now.production.now (tree_of forward)) }
{
    match &rules.production.forward {
        Some(_) => Some(rules.codes.forward.ops.as_slice()),
        None => None,
    }
}

// The equations of a production, by what they are for.
pub(crate) fn equations_of(alloc: Global, production: &Production) -> Result<Equations, AllocError>
    ensures { IfOk result (IsIndexOf production.now.equations (length production.now.equations)) }
{
    let mut made = Equations::new(alloc);
    let mut number = 0;
    'equations: for equation in production.equations.as_slice() {
        number += 1;
        made.set(equation.target, number)?;
    }
    Ok(made)
}

impl Equations {
    // None.
    fn new(alloc: Global) -> Equations
        ensures found { AreFound result }
        ensures none { (target : Target) → number_for result target ≡ 0 }
    {
        Equations {
            tops: SparseRows::new(alloc, 0),
            forwards: SparseRows::new(alloc, 0),
            children: SparseRows::new(alloc, 0),
            locals: SparseRows::new(alloc, 0),
        }
    }

    // The number of the equation for a target, or 0.
    #[inline(always)]
    fn get(&self, target: Target) -> usize
        ensures { result ≡ number_for self.now target }
    {
        match target {
            Target::Top(attribute) => self.tops.get(0, attribute),
            Target::Forward(attribute) => self.forwards.get(0, attribute),
            Target::Place { place, attribute } => match place {
                Place::Child(k) => self.children.get(k, attribute),
                Place::Local(x) => self.locals.get(x, attribute),
            },
        }
    }

    // Writes the number of the equation for a target.
    fn set(&mut self, target: Target, number: usize) -> Result<(), AllocError>
        requires { AreFound self.old }
        ensures found { OnOk result (AreFound self.new) }
        ensures set { OnOk result (number_for self.new target ≡ number) }
        ensures kept { OnOk result ((other : Target) → other ≢ target → number_for self.new other ≡ number_for self.old other) }
    {
        match target {
            Target::Top(attribute) => self.tops.put(0, attribute, number)?,
            Target::Forward(attribute) => self.forwards.put(0, attribute, number)?,
            Target::Place { place, attribute } => match place {
                Place::Child(k) => self.children.put(k, attribute, number)?,
                Place::Local(x) => self.locals.put(x, attribute, number)?,
            },
        }
        Ok(())
    }
}

impl Drop for Equations {
    fn drop(self) {
        let Equations {
            tops,
            forwards,
            children,
            locals,
        } = self;
        drop(tops);
        drop(forwards);
        drop(children);
        drop(locals);
    }
}
