//! How is a caller's own operation stored?
//!
//! It is a boxed closure. That it answers what is meant is the clause `kept` of a table's calls.

use crate::OperationRefusal;
use wb_values::Value;

/// A stored closure.
pub type Run = Box<dyn Fn(&[Value]) -> Result<Value, OperationRefusal>>;

// What a closure answers.
pub(crate) fn call_run(run: &Run, arguments: &[Value]) -> Result<Value, OperationRefusal>
    requires { Run.pre run.now arguments }
    ensures { Run.post run.now arguments.entry result }
{
    run(arguments)
}
