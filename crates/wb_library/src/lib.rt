//! The calls of C: a workbench by its pointer, and all else by handles.
//!
//! Each export opens the pointer, makes one call of `wb_session_library`, whose clauses it states again, and closes it. What C owes is in
//! `include/workbench.h`. A call answers 0, or the number of its refusal.
#![tactic(auto)]

mod answers;
mod closing;
mod files;
mod notes;
mod pointer;
mod texts;
mod walking;

ghost use Rattle.std.specs.Prelude.{◌≡◌, ◌⊎◌};

use pointer::Pointer;
use std::alloc::Global;
use wb_library_handles::Loose;
use wb_session_library::Workbench;

/// Makes a workbench without values, and writes where it is. Answers 0, or 11 where memory ran out.
#[unsafe(no_mangle)]
pub extern "C" fn wb_new(alloc: Global, out: &mut *mut u8) -> u32
    ensures { (result ≡ 0) ⊎ ((result ≡ 11) × (out.new ≡ out.old)) }
{
    match Box::new(alloc, Workbench::new(alloc)) {
        Ok(made) => {
            *out = Pointer::of(Loose::of(made)).leak();
            0
        }
        Err(_) => 11,
    }
}

/// Lets go of a workbench with all that it has.
#[unsafe(no_mangle)]
pub extern "C" fn wb_free(workbench: Pointer) {
    drop(workbench.open_loose().into_box());
}
