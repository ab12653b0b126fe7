//! Builds the row of a production from its parts.
//!
//! A row is a head and what is written on it. A crate that lets go of either, or of whole rows, by the calls here proves no drop of what
//! they hold.

ghost use Rattle.std.specs.Prelude.{◌≡◌, ◌++◌, ◌∷◌, [], OnOk};
ghost use Rattle.wb_names_rows.specs.Row.{row_of};

use crate::body::Body;
use std::alloc::AllocError;
use wb_base::{Bytes, Sequence, push};
use wb_syntax_resolved::{Child, Forward, Production, ProductionRole};

/// What a row has beside its locals and equations.
#[derive(Drop)]
pub struct Head {
    pub name: Bytes,
    pub owner: usize,
    pub role: ProductionRole,
    pub left: usize,
    pub children: Sequence<Child>,
    pub forward: Option<Forward>,
}

/// Adds the row of a head and a body. Lets go of what the body forwards to.
pub fn add_row(head: Head, body: Body, rows: &mut Vec<Production>) -> Result<(), AllocError>
    ensures { OnOk result (rows.new.items ≡ rows.old.items ++ row_of head body ∷ []) }
{
    drop(body.forwards);
    push(
        rows,
        Production {
            name: head.name,
            owner: head.owner,
            role: head.role,
            left: head.left,
            children: head.children,
            locals: Sequence::from_vec(body.locals),
            forward: head.forward,
            equations: Sequence::from_vec(body.equations),
        },
    )
}

impl Head {
    /// Lets go of the head.
    pub fn release(self) {
        drop(self.name);
        drop(self.children);
        drop(self.forward)
    }
}

impl Body {
    /// Lets go of what is written.
    pub fn release(self) {
        drop(self.locals);
        drop(self.forwards);
        drop(self.equations)
    }
}
