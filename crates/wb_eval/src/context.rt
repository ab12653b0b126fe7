//! What does an evaluation rest on, and which expression does it evaluate?

use wb_eval_rules::{Op, RuleIndex};
use wb_operations::{Meaning, OperationSignatures, OperationTable};
use wb_syntax_resolved::AttributionParts;

// Definitions, the operations that their expressions call, and how many instances may be entered.
#[derive(Drop)]
pub(crate) struct Context<'a, 'b, M: Meaning> {
    pub definitions: Definitions<'a>,
    pub operations: &'b OperationTable<M>,
    pub steps: u64,
}

// Attributes, and their rules by what they define.
#[derive(Clone, Copy)]
pub(crate) struct Definitions<'a> {
    pub attributes: &'a AttributionParts,
    pub rules: &'a RuleIndex,
}

// Code at a site.
#[derive(Clone, Copy)]
pub(crate) struct Expression<'a> {
    pub site: usize,
    pub code: &'a [Op],
}
