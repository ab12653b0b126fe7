//! Where is the code of each expression of a production found?
//!
//! By the expression's place among the production's equations or locals. How an expression becomes code is in `code`.

ghost use Rattle.std.specs.Prelude.{◌≡◌, length, IfOk};
ghost use Rattle.wb_eval_rules.specs.Codes.{AreEquationCodes, AreLocalCodes, IsForwardCode, IsCoded};

use crate::code::{Op, compile};
use std::alloc::{AllocError, Global};
use wb_operations::OperationSignatures;
use wb_syntax_resolved::{Equation, Forward, Local, Production};

/// The code of an expression.
pub struct Code {
    /// Its instructions.
    pub ops: Vec<Op>,
}

impl Drop for Code {
    fn drop(self) {
        let Code { ops } = self;
        drop(ops);
    }
}

/// The code of each expression of a production.
pub struct Codes {
    /// That of each equation.
    pub equations: Vec<Code>,
    /// That of the tree of each local.
    pub locals: Vec<Code>,
    /// That of the forwarded tree, or nothing.
    pub forward: Code,
}

impl Drop for Codes {
    fn drop(self) {
        let Codes {
            equations,
            locals,
            forward,
        } = self;
        drop(equations);
        drop(locals);
        drop(forward);
    }
}

// The code of each expression of a production.
pub(crate) fn codes_of(
    alloc: Global,
    signatures: &OperationSignatures,
    production: &Production,
) -> Result<Codes, AllocError>
    ensures { IfOk result (IsCoded signatures.now production.now) }
{
    let equations = equation_codes(alloc, signatures, production.equations.as_slice())?;
    let locals = local_codes(alloc, signatures, production.locals.as_slice())?;
    let ops = forward_code(alloc, signatures, &production.forward)?;
    Ok(Codes {
        equations,
        locals,
        forward: Code { ops },
    })
}

// The code of each equation.
fn equation_codes(
    alloc: Global,
    signatures: &OperationSignatures,
    equations: &[Equation],
) -> Result<Vec<Code>, AllocError>
    ensures { IfOk result (λ made. AreEquationCodes signatures.now equations.now made.items) }
{
    let mut made = Vec::new(alloc);
    'equations: for equation in equations {
        made.reserve(1)?;
        let ops = compile(alloc, signatures, equation.nodes.as_slice())?;
        made.push_reserved(Code { ops });
    }
    Ok(made)
}

// The code of the tree of each local.
fn local_codes(
    alloc: Global,
    signatures: &OperationSignatures,
    locals: &[Local],
) -> Result<Vec<Code>, AllocError>
    ensures { IfOk result (λ made. AreLocalCodes signatures.now locals.now made.items) }
{
    let mut made = Vec::new(alloc);
    'locals: for local in locals {
        made.reserve(1)?;
        let ops = compile(alloc, signatures, local.nodes.as_slice())?;
        made.push_reserved(Code { ops });
    }
    Ok(made)
}

// The code of the forwarded tree, or nothing.
fn forward_code(
    alloc: Global,
    signatures: &OperationSignatures,
    forward: &Option<Forward>,
) -> Result<Vec<Op>, AllocError>
    ensures { IfOk result (λ made. IsForwardCode signatures.now forward.now made.items) }
{
    match forward {
        Some(forward) => compile(alloc, signatures, forward.nodes.as_slice()),
        None => Ok(Vec::new(alloc)),
    }
}
