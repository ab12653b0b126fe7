//! Where are the rules of each production found, by its number?

ghost use Rattle.std.specs.Prelude.{◌≡◌, ◌<◌, length, slice_get, Some, IfOk};
ghost use Rattle.wb_eval_rules.specs.Codes.{AreCoded};
ghost use Rattle.wb_eval_rules.specs.Indexes.{IsIndexOf, AreIndexes};

use crate::codes::{Codes, codes_of};
use crate::equations::{Equations, equations_of};
use std::alloc::{AllocError, Global};
use wb_operations::OperationSignatures;
use wb_syntax_resolved::Production;

/// The equations of each production, by its number, and the code of its expressions.
pub struct RuleIndex {
    /// The equations of each production.
    pub rows: Vec<Equations>,
    /// The code of each.
    pub codes: Vec<Codes>,
}

impl RuleIndex {
    /// The index of these productions, where operations have these signatures.
    pub fn new(
        alloc: Global,
        signatures: &OperationSignatures,
        productions: &[Production],
    ) -> Result<RuleIndex, AllocError>
        ensures indexes { IfOk result (λ made. AreIndexes productions.now made.rows.items) }
        ensures coded { IfOk result (λ made. AreCoded signatures.now productions.now made.codes.items) }
    {
        let rows = rows_of(alloc, productions)?;
        let codes = all_codes(alloc, signatures, productions)?;
        Ok(RuleIndex { rows, codes })
    }

    /// Lets go of the index. A crate that calls this proves no drop of what it holds.
    pub fn release(self) {
        drop(self)
    }
}

impl Drop for RuleIndex {
    fn drop(self) {
        let RuleIndex { rows, codes } = self;
        drop(rows);
        drop(codes);
    }
}

// The equations of each production.
fn rows_of(alloc: Global, productions: &[Production]) -> Result<Vec<Equations>, AllocError>
    ensures { IfOk result (λ made. AreIndexes productions.now made.items) }
{
    let mut rows = Vec::new(alloc);
    'productions: for production in productions {
        rows.reserve(1)?;
        let row = equations_of(alloc, production)?;
        rows.push_reserved(row);
    }
    Ok(rows)
}

// The code of each production.
fn all_codes(
    alloc: Global,
    signatures: &OperationSignatures,
    productions: &[Production],
) -> Result<Vec<Codes>, AllocError>
    ensures { IfOk result (λ made. AreCoded signatures.now productions.now made.items) }
{
    let mut made = Vec::new(alloc);
    'productions: for production in productions {
        made.reserve(1)?;
        let codes = codes_of(alloc, signatures, production)?;
        made.push_reserved(codes);
    }
    Ok(made)
}
