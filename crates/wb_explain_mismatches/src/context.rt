//! Over what is an expression, and in which production is it?

use wb_explain_places::Source;
use wb_operations::OperationSignatures;
use wb_syntax_resolved::{AttributionParts, Production};

// The file that is spoken of, its attribution, and the operations.
#[derive(Clone, Copy)]
pub(crate) struct World<'a> {
    pub(crate) source: &'a Source<'a>,
    pub(crate) attributes: &'a AttributionParts,
    pub(crate) operations: &'a OperationSignatures,
}

// The attribution, the operations, and the production that an expression is in.
#[derive(Clone, Copy)]
pub(crate) struct Context<'a> {
    pub(crate) attributes: &'a AttributionParts,
    pub(crate) operations: &'a OperationSignatures,
    pub(crate) production: &'a Production,
}
