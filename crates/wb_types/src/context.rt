//! By which rule is an expression tested, and in which production is it?
//!
//! All rules read the same few things, so they are handed on together. The rules themselves are in `check`.

use wb_operations::OperationSignatures;
use wb_syntax_resolved::{AttributionParts, Production};

// The rule, the attribution, the operations, and the production that an expression is in.
#[derive(Clone, Copy)]
pub(crate) struct Context<'a> {
    pub(crate) rule: Rule,
    pub(crate) attributes: &'a AttributionParts,
    pub(crate) operations: &'a OperationSignatures,
    pub(crate) production: &'a Production,
}

// The kind rules, in the order in which they are tested.
#[derive(Clone, Copy)]
pub(crate) enum Rule {
    // Each operation is in the table.
    Known,
    // Each production and operation has the right number of arguments.
    Arity,
    // Each expression is of the kind that its place asks for.
    Kind,
}
