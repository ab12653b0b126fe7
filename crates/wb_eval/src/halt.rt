//! What waits where an evaluation ends without a value?
//!
//! Instances, each for the one after it, by the sites of a memo. What they are is in `specs/Waits`.

use crate::machine::Key;
use wb_eval_memo::Memo;

/// Why an evaluation ends without a value.
#[derive(Clone, Copy)]
pub enum Halt {
    /// An operation fails: its number in the table, and the code.
    Fault {
        /// The operation.
        operation: usize,
        /// Its code.
        code: u32,
    },
    /// More instances are needed than there are steps.
    MoreSteps,
}

/// The instances that wait where an evaluation ends without a value.
pub struct Waiting {
    /// The sites, with the trees and values that are known.
    pub memo: Memo,
    /// The instances, the one that is asked first. Each reads the next one, and the evaluation ended in the last.
    pub keys: Vec<Key>,
    /// Why it ended.
    pub halt: Halt,
}

impl Drop for Waiting {
    fn drop(self) {
        let Waiting {
            memo,
            keys,
            halt: _,
        } = self;
        drop(memo);
        drop(keys);
    }
}
