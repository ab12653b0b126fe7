//! Of what is something said?

use wb_explain_places::Source;
use wb_flow::Scope;

/// The numbered value of a specification, and its files.
#[derive(Clone, Copy)]
pub struct Told<'a> {
    pub scope: &'a Scope<'a>,
    pub source: &'a Source<'a>,
}
