//! How does a program that isn't written in Rattle hold a workbench? By a struct of one pointer, which owns what a box of it owned.

ghost use Rattle.std.specs.Prelude.{◌≡◌};
ghost use Rattle.wb_session_library.specs.contracts.workbench.Workbench as workbench;
ghost use Rattle.wb_session_library.specs.declared.workbench.Workbench.{Workbench};

use std::alloc::Global;
use std::marker::Model;
use wb_library_handles::Loose;
use wb_session_library::Workbench;

/// A workbench of which the pointer is known alone.
#[repr(C)]
pub struct Pointer {
    at: *mut u8,
    alloc: Global,
    pub ghost value: { Workbench } by { workbench.the_row.coded },
}

impl Model for Pointer {
    ghost use Rattle.std.specs.Box.Ownership.{box_owns};
    ghost use Rattle.std.specs.contracts.impls.GlobalAllocator.TheImpl.{ghosts};
    ghost use Rattle.wb_session_library.specs.contracts.workbench.Workbench as workbench;

    ghost also_owns = { λ p. box_owns (ghosts.dealloc_token p.alloc) workbench.the_row p.at p.value };
}

impl Pointer {
    // The pointer of a box.
    pub(crate) fn of(loose: Loose<Workbench, Global>) -> Pointer
        ensures { result.value ≡ loose.value }
    {
        let Loose { at, alloc } = loose;
        Pointer {
            at: at as *mut u8,
            alloc,
        }
    }

    // The box of a pointer.
    pub(crate) fn open_loose(self) -> Loose<Workbench, Global>
        ensures { result.value ≡ self.value }
    {
        let Pointer { at, alloc } = self;
        Loose {
            at: at as *mut Workbench,
            alloc,
        }
    }

    // The address alone. What is there stays as it is.
    pub(crate) fn leak(self) -> *mut u8
        ensures { result ≡ self.at }
    {
        let Pointer { at, alloc: _ } = self;
        at
    }
}
