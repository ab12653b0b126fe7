//! Builds the forms of terminals that are written as they are.

ghost use Rattle.std.specs.Prelude.{◌≡◌, IfOk};
ghost use Rattle.wb_scan.specs.Bare.{bare_forms};

use std::alloc::{AllocError, Global};
use wb_base::{Bytes, push};
use wb_scan_theory::Form;

// A bare form for each of so many terminals.
pub(crate) fn bare_forms(alloc: Global, count: usize) -> Result<Vec<Form>, AllocError>
    ensures { IfOk result (λ forms. forms.items ≡ bare_forms count) }
{
    let mut forms = Vec::new(alloc);
    'terminals: for terminal in 0..count {
        push(
            &mut forms,
            Form {
                terminal,
                prefix: Bytes::from_slice(alloc, b"")?,
            },
        )?;
    }
    Ok(forms)
}
