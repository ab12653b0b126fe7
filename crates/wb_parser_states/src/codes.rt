//! Keeps what is done at a state on a terminal in 32 bits, with the left side and the width of a reduction, so that neither the tables nor the
//! productions are asked for it again.
//!
//! A code is kept when its action is first asked for, so a short text doesn't wait for the codes of all states.

ghost use Rattle.std.specs.Prelude.{◌≡◌, ◌≢◌, ◌<◌, ◌≤◌, ◌+◌, ◌*◌, Some, length, slice_get};
ghost use Rattle.wb_base.specs.Grammar.{GrammarView};
ghost use Rattle.wb_lookahead.specs.Contents.{TablesView};
ghost use Rattle.wb_parser_states.specs.Codes.{AreCodes};
ghost use Rattle.wb_parser_states.specs.Inner.Coded.{KeepsCode};

use std::alloc::Global;

// How many codes are kept. Where there are more states and terminals, none is.
const LIMIT: usize = 1_048_576;

// The codes of actions: a row for each state, with one for each terminal and one for the end of a text. A code that isn't known is 0.
pub(crate) struct Codes {
    pub(crate) width: usize,
    pub(crate) rows: usize,
    pub(crate) list: Vec<u32>,
}

impl Drop for Codes {
    fn drop(self) {
        let Codes {
            width: _,
            rows: _,
            list,
        } = self;
        drop(list);
    }
}

// Room for so many rows of a width, in which no code is known. There is none where that is too much, or where there is no memory.
pub(crate) fn codes_of(alloc: Global, rows: usize, width: usize) -> Codes
    ensures { (g : GrammarView) (tables : TablesView) → width ≡ g.terminals + 1 → AreCodes g tables result }
{
    let rows = rows_within(rows, width);
    match vec![in alloc; 0; rows * width] {
        Ok(list) => Codes { width, rows, list },
        Err(_) => Codes {
            width,
            rows: 0,
            list: Vec::new(alloc),
        },
    }
}

// That many rows of a width, and none where that is too many codes.
fn rows_within(rows: usize, width: usize) -> usize
    ensures { result * width ≤ 1048576 }
{
    match rows.checked_mul(width) {
        Some(size) if size <= LIMIT => rows,
        _ => 0,
    }
}

impl Codes {
    // The code of the action at a state on a terminal, and 0 where it isn't known.
    #[inline(always)]
    pub(crate) fn at(&self, state: usize, terminal: usize) -> u32
        requires size { length self.now.list.items ≡ self.now.rows * self.now.width }
        requires terminal { terminal < self.now.width }
        ensures { result ≢ 0 → slice_get self.now.list.items (state * self.now.width + terminal) ≡ Some result }
    {
        if state < self.rows {
            return self.list[state * self.width + terminal];
        }
        0
    }

    // Keeps a code at its place, where there is one.
    pub(crate) fn keep(&mut self, state: usize, terminal: usize, code: u32)
        requires size { length self.old.list.items ≡ self.old.rows * self.old.width }
        requires terminal { terminal < self.old.width }
        ensures { KeepsCode self.old state terminal code self.new }
    {
        if state < self.rows {
            self.list[state * self.width + terminal] = code;
        }
    }
}
