//! What do callers ask of new kernels? Their items, moves and starts; `follow.rt` finds them.

ghost use Rattle.std.specs.Prelude.{◌≡◌, ◌<◌, IfOk, Some, length, slice_get};
ghost use Rattle.wb_items.specs.Table.{AreProductions};
ghost use Rattle.wb_determinism_kernels.specs.Given.{IsGiven};
ghost use Rattle.wb_determinism_kernels.specs.NewKernels.{AreNewKernels};

use crate::beside::Beside;
use crate::follow::{Table, follow};
use crate::index::Index;
use crate::starts::{Start, starts_of};
use std::alloc::{AllocError, Global};
use std::marker::Model;
use wb_base::Sequence;
use wb_items::{Item, Move, Numbers};

/// The kernels of a host with an extension that are none of the host's.
///
/// They are numbered after those of the host, in the order in which they are found from the extension's markers on. Contracts see for each
/// from which number which symbol led to it first, its items, the items of its closure, and its moves; and where new kernels start.
pub struct NewKernels {
    starts: Vec<Start>,
    found: Index,
    closures: Vec<Sequence<Item>>,
    rows: Vec<Sequence<Move>>,
}

impl Model for NewKernels {
    ghost use Rattle.wb_determinism_kernels.specs.NewKernels.{NewKernelsView};

    ghost Value = { NewKernelsView };

    ghost view = { λ n. record { starts = n.starts.items; index = n.found; closures = n.closures.items; moves = n.rows.items } };
}

impl NewKernels {
    /// The new kernels of a host with an extension.
    ///
    /// Nothing is made for a kernel of the host. No clause bounds the time or how many kernels there are.
    pub fn find(alloc: Global, beside: &Beside, rules: &[Numbers]) -> Result<NewKernels, AllocError>
        requires given { IsGiven beside.now.host.now beside.now.grammar.now beside.now.numbers.now beside.now.images.now }
        requires own { beside.now.host.now.grammar ≡ beside.now.own.now }
        requires rules { AreProductions beside.now.grammar.now rules.now }
        ensures { IfOk result (AreNewKernels beside.now.host.now beside.now.grammar.now beside.now.numbers.now beside.now.images.now) }
    {
        let mut found = Index::new(alloc);
        let starts = starts_of(alloc, beside, &mut found)?;
        let mut table = Table {
            found,
            closures: Vec::new(alloc),
            rows: Vec::new(alloc),
        };
        'kernels: while table.closures.len() < table.found.len() {
            follow(alloc, beside, rules, &mut table)?;
        }
        let Table {
            found,
            closures,
            rows,
        } = table;
        Ok(NewKernels {
            starts,
            found,
            closures,
            rows,
        })
    }

    /// How many new kernels there are.
    pub fn len(&self) -> usize
        ensures { result ≡ length self.now.index.kernels }
    {
        self.found.len()
    }

    /// The items of a new kernel.
    pub fn kernel(&self, place: usize) -> &[Item]
        requires { place < length self.now.index.kernels }
        ensures { slice_get self.now.index.kernels place ≡ Some result.now }
    {
        self.found.kernel(place)
    }

    /// The items of the closure of a new kernel.
    pub fn closure(&self, place: usize) -> &[Item]
        requires { place < length self.now.closures }
        ensures { slice_get self.now.closures place ≡ Some result.now }
    {
        self.closures[place].as_slice()
    }

    /// The moves of a new kernel, in the order of their symbols.
    pub fn moves(&self, place: usize) -> &[Move]
        requires { place < length self.now.moves }
        ensures { slice_get self.now.moves place ≡ Some result.now }
    {
        self.rows[place].as_slice()
    }

    /// Where new kernels start: at those after markers.
    pub fn starts(&self) -> &[Start]
        ensures { result.now ≡ self.now.starts }
    {
        &self.starts
    }
}

impl Drop for NewKernels {
    fn drop(self) {
        let NewKernels {
            starts,
            found,
            closures,
            rows,
        } = self;
        drop(starts);
        drop(found);
        drop(closures);
        drop(rows);
    }
}
