//! Which nodes has an evaluation come to, and how are they found from the node above in constant time?
//!
//! A site is a node by its path: site 0 is the root, and each other site has an origin. Trees are in `memo`. A site that comes right after
//! the one above it is found by its origin, and any other by a row.

ghost use Rattle.std.specs.Prelude.{◌≡◌, ◌≢◌, ◌⊎◌, ◌≤◌, ◌<◌, ◌+◌, ◌^◌, ℕ, suc, [], ◌∷◌, ◌++◌, length, slice_get, OnOk, IfOk};
ghost use Rattle.wb_eval_memo.specs.Sites.{link, link_in_rows, is_step, is_next, AreFound, IsSites};
ghost use Rattle.wb_eval_memo.specs.Inner.Steps.{IsOther};

use std::alloc::{AllocError, Global};
use wb_eval_rows::{Rows, SparseRows};

// How many sites have a number of 32 bits.
const LOW: usize = 4_294_967_296;

/// A step down from a node.
#[derive(Clone, Copy)]
pub enum Step {
    /// To a child.
    Child(u32),
    /// To the tree of a local.
    Local(u32),
    /// To the forwarded tree.
    Forward,
}

/// How a site is reached from another, in 12 bytes.
#[derive(Clone, Copy)]
pub struct Origin {
    /// The site above.
    pub parent: u32,
    /// The step down from it.
    pub step: Step,
}

const _: () = prove!(size_of::<Origin>() == 12);

/// The sites, by number.
pub struct Sites {
    /// How each is reached, but for the root.
    pub origins: Vec<Origin>,
    /// The sites of children, by site and child.
    pub children: SparseRows,
    /// Those of the trees of locals, by site and local.
    pub locals: SparseRows,
    /// Those of forwarded trees, by site.
    pub forwards: Rows,
}

impl Sites {
    /// The root alone.
    pub fn new(alloc: Global) -> Sites
        ensures origins { result.origins.items ≡ [] }
        ensures whole { IsSites result }
    {
        Sites {
            origins: Vec::new(alloc),
            children: SparseRows::new(alloc, 0),
            locals: SparseRows::new(alloc, 0),
            forwards: Rows::new(alloc, 0),
        }
    }

    /// The site one step down from another, or 0.
    #[inline(always)]
    pub fn find(&self, parent: usize, step: Step) -> usize
        ensures { result ≡ link self.now parent step }
    {
        if self.is_next(parent, step) {
            parent + 1
        } else {
            self.find_in_rows(parent, step)
        }
    }

    // Whether the site after another is the one this step down from it.
    #[inline(always)]
    fn is_next(&self, parent: usize, step: Step) -> bool
        ensures { result ≡ is_next (slice_get self.now.origins.items parent) parent step }
    {
        if parent < self.origins.len() {
            let origin = self.origins[parent];
            origin.parent as usize == parent && is_step(origin.step, step)
        } else {
            false
        }
    }

    // The site one step down from another that rows have, or 0.
    #[inline(always)]
    fn find_in_rows(&self, parent: usize, step: Step) -> usize
        ensures { result ≡ link_in_rows self.now parent step }
    {
        match step {
            Step::Child(k) => self.children.get(parent, k as usize),
            Step::Local(x) => self.locals.get(parent, x as usize),
            Step::Forward => self.forwards.get(parent, 0),
        }
    }

    /// Adds the site one step down from another, which isn't there.
    #[inline(always)]
    pub fn add(&mut self, parent: usize, step: Step) -> Result<usize, AllocError>
        requires whole { IsSites self.old }
        requires there { parent ≤ length self.old.origins.items }
        requires new { link self.old parent step ≡ 0 }
        ensures number { IfOk result (λ site. site ≡ suc (length self.old.origins.items)) }
        ensures origins { OnOk result (self.new.origins.items ≡ self.old.origins.items ++ record { parent = parent; step = step } ∷ []) }
        ensures whole { OnOk result (IsSites self.new) }
    {
        if parent >= LOW {
            return Err(AllocError);
        }
        let site = self.origins.len() + 1;
        self.origins.reserve(1)?;
        self.set_link(parent, step, site)?;
        self.origins.push_reserved(Origin {
            parent: parent as u32,
            step,
        });
        Ok(site)
    }

    // Writes which site is one step down from another, unless it comes right after that.
    #[inline(always)]
    fn set_link(&mut self, parent: usize, step: Step, site: usize) -> Result<(), AllocError>
        requires room { parent + 1 < 2 ^ 64 }
        requires found { AreFound self.old }
        ensures found { OnOk result (AreFound self.new) }
        ensures origins { OnOk result (self.new.origins ≡ self.old.origins) }
        ensures set { OnOk result ((site ≡ suc parent) ⊎ (link_in_rows self.new parent step ≡ site)) }
        ensures kept { OnOk result ((i : ℕ) (other : Step) → IsOther parent step i other → link_in_rows self.new i other ≡ link_in_rows self.old i other) }
    {
        if site == parent + 1 {
            return Ok(());
        }
        self.set_row(parent, step, site)
    }

    // Writes into rows which site is one step down from another.
    #[inline(always)]
    fn set_row(&mut self, parent: usize, step: Step, site: usize) -> Result<(), AllocError>
        requires found { AreFound self.old }
        ensures found { OnOk result (AreFound self.new) }
        ensures origins { OnOk result (self.new.origins ≡ self.old.origins) }
        ensures set { OnOk result (link_in_rows self.new parent step ≡ site) }
        ensures kept { OnOk result ((i : ℕ) (other : Step) → IsOther parent step i other → link_in_rows self.new i other ≡ link_in_rows self.old i other) }
    {
        match step {
            Step::Child(k) => self.children.put(parent, k as usize, site)?,
            Step::Local(x) => self.locals.put(parent, x as usize, site)?,
            Step::Forward => self.forwards.put(parent, 0, site)?,
        }
        Ok(())
    }
}

// Whether a step is another.
#[inline(always)]
fn is_step(step: Step, other: Step) -> bool
    ensures { result ≡ is_step step other }
{
    match step {
        Step::Child(k) => match other {
            Step::Child(other) => k == other,
            _ => false,
        },
        Step::Local(x) => match other {
            Step::Local(other) => x == other,
            _ => false,
        },
        Step::Forward => match other {
            Step::Forward => true,
            _ => false,
        },
    }
}

impl Drop for Sites {
    fn drop(self) {
        let Sites {
            origins,
            children: _,
            locals: _,
            forwards: _,
        } = self;
        drop(origins);
    }
}
