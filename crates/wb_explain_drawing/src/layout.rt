//! Where in a picture is each node? It has the room of its own box, or of what is below it side by side, and is over the middle of that.

use crate::Item;
use crate::levels::{at, put};
use std::alloc::{AllocError, Global};
use wb_base::push;

// The space between boxes.
const GAP: usize = 14;

/// Where the boxes of items are.
pub struct Layout {
    // How wide the boxes are.
    boxes: Vec<usize>,
    // The item right above each; that of the first is itself.
    parents: Vec<usize>,
    // How wide what is below each is, with a gap after each box.
    below: Vec<usize>,
    // How far each is from the left, with what is below it.
    lefts: Vec<usize>,
    // How far from the left is the next that is below each.
    next: Vec<usize>,
    // The middle of the last that is right below each.
    lasts: Vec<usize>,
    // The middle of each.
    middles: Vec<usize>,
}

impl Drop for Layout {
    fn drop(self) {
        let Layout {
            boxes,
            parents,
            below,
            lefts,
            next,
            lasts,
            middles,
        } = self;
        drop(boxes);
        drop(parents);
        drop(below);
        drop(lefts);
        drop(next);
        drop(lasts);
        drop(middles);
    }
}

impl Layout {
    /// No items.
    pub fn new(alloc: Global) -> Layout {
        Layout {
            boxes: Vec::new(alloc),
            parents: Vec::new(alloc),
            below: Vec::new(alloc),
            lefts: Vec::new(alloc),
            next: Vec::new(alloc),
            lasts: Vec::new(alloc),
            middles: Vec::new(alloc),
        }
    }

    /// Adds the width of the box of the next item.
    pub fn add(&mut self, width: usize) -> Result<(), AllocError> {
        push(&mut self.boxes, width)
    }

    /// Lays items out, of which each has the width of its box. They are in the order of a listing.
    pub fn lay_out(&mut self, items: &[Item]) -> Result<(), AllocError> {
        let levels = levels_in(items);
        fill(&mut self.next, levels)?;
        add_parents(items, &mut self.next, &mut self.parents)?;
        self.next.clear();
        fill(&mut self.below, items.len())?;
        fill(&mut self.next, items.len())?;
        fill(&mut self.lefts, items.len())?;
        fill(&mut self.lasts, items.len())?;
        fill(&mut self.middles, items.len())?;
        self.sum_up(items.len());
        self.place(items.len());
        self.center(items.len());
        Ok(())
    }

    /// The item right above one.
    pub fn parent(&self, place: usize) -> usize {
        at(&self.parents, place)
    }

    /// How far the middle of an item is from the left.
    pub fn middle(&self, place: usize) -> usize {
        at(&self.middles, place)
    }

    /// How wide the box of an item is.
    pub fn width(&self, place: usize) -> usize {
        at(&self.boxes, place)
    }

    /// How wide an item is with what is below it.
    pub fn span(&self, place: usize) -> usize {
        at(&self.boxes, place).max(self.inner(place))
    }

    // How wide what is below an item is.
    fn inner(&self, place: usize) -> usize {
        at(&self.below, place).saturating_sub(GAP)
    }

    // Sums up how wide what is below each item is, the last item first.
    fn sum_up(&mut self, count: usize) {
        'items: for done in 0..count {
            let place = count - 1 - done;
            if place > 0 {
                let wide = self.span(place).saturating_add(GAP);
                let parent = self.parent(place);
                let sum = at(&self.below, parent).saturating_add(wide);
                put(&mut self.below, parent, sum);
            }
        }
    }

    // Places each item after those that are before it below the same one.
    fn place(&mut self, count: usize) {
        'items: for place in 0..count {
            let parent = self.parent(place);
            let left = at(&self.next, parent);
            let span = self.span(place);
            let first = left.saturating_add(span.saturating_sub(self.inner(place)) / 2);
            put(&mut self.lefts, place, left);
            if place > 0 {
                let after = left.saturating_add(span).saturating_add(GAP);
                put(&mut self.next, parent, after);
            }
            put(&mut self.next, place, first);
        }
    }

    // Puts each item over the middle of the first and the last that are right below it, the last item first.
    fn center(&mut self, count: usize) {
        'items: for done in 0..count {
            let place = count - 1 - done;
            let middle = self.middle_of(place);
            let parent = self.parent(place);
            put(&mut self.middles, place, middle);
            if place > 0 {
                if at(&self.lasts, parent) == 0 {
                    put(&mut self.lasts, parent, middle);
                }
                put(&mut self.middles, parent, middle);
            }
        }
    }

    // The middle of an item, where the middles of those right below it are known: its box is within its room.
    fn middle_of(&self, place: usize) -> usize {
        let left = at(&self.lefts, place);
        let span = self.span(place);
        let half = self.width(place) / 2;
        let last = at(&self.lasts, place);
        if last == 0 {
            return left.saturating_add(span / 2);
        }
        let middle = (at(&self.middles, place) / 2).saturating_add(last / 2);
        let least = left.saturating_add(half);
        let most = left.saturating_add(span.saturating_sub(half));
        middle.max(least).min(most)
    }
}

// How many levels items have.
fn levels_in(items: &[Item]) -> usize {
    let mut levels = 0;
    'items: for item in items {
        levels = levels.max(item.depth.saturating_add(1));
    }
    levels
}

// Adds zeros to an empty list.
fn fill(list: &mut Vec<usize>, count: usize) -> Result<(), AllocError> {
    'numbers: for _ in 0..count {
        push(list, 0)?;
    }
    Ok(())
}

// Adds the item right above each item. At the place of a level is the last item on it.
fn add_parents(
    items: &[Item],
    levels: &mut Vec<usize>,
    parents: &mut Vec<usize>,
) -> Result<(), AllocError> {
    'items: for (place, item) in items.iter().enumerate() {
        push(parents, at(levels, item.depth.saturating_sub(1)))?;
        put(levels, item.depth, place);
    }
    Ok(())
}
