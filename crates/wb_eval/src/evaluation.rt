//! What does an evaluation go on with?
//!
//! With what is known of instances, and with the values of all code that is at work or waits.

ghost use Rattle.std.specs.Prelude.{◌≡◌};

use crate::halt::{Halt, Waiting};
use crate::machine::Machine;
use wb_values::Value;

// What is kept from one instance to the next, and the values, those of the instance at work last.
pub(crate) struct Evaluation<'a> {
    pub machine: Machine<'a>,
    pub values: Vec<Value>,
}

impl<'a> Evaluation<'a> {
    // The instances that wait, where the evaluation ended without a value for this reason.
    pub(crate) fn into_waiting(self, halt: Halt) -> Waiting
        ensures memo { result.memo ≡ self.entry.machine.memo }
        ensures keys { result.keys ≡ self.entry.machine.stack }
        ensures halt { result.halt ≡ halt }
    {
        let Evaluation { machine, values } = self;
        let Machine {
            memo,
            stack,
            frames,
            root: _,
            attribute: _,
            entered: _,
        } = machine;
        drop(frames);
        drop(values);
        Waiting {
            memo,
            keys: stack,
            halt,
        }
    }
}

// By hand, so that all is let go of in one function.
impl<'a> Drop for Evaluation<'a> {
    fn drop(self) {
        let Evaluation { machine, values } = self;
        let Machine {
            memo,
            stack,
            frames,
            root: _,
            attribute: _,
            entered: _,
        } = machine;
        drop(memo);
        drop(stack);
        drop(frames);
        drop(values);
    }
}
