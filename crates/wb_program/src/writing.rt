//! How is a report written whole?
//!
//! In as many calls as the sink asks for, since it may take less than it is given. What is written is made in the files of the commands.

ghost use Rattle.std.specs.Prelude.{◌≡◌, ◌≤◌, OnOk, OnErr};
ghost use Rattle.std.specs.Io.KnownBytes.{append_known};
ghost use Rattle.wb_world.specs.Cause.{Rose};
ghost use Rattle.wb_program.specs.Written.{WrotePrefix};

use wb_world::{Put, Sink};

// The sink failed.
#[derive(Clone, Copy)]
pub(crate) struct WriteFailed;

// Writes a report. After a failure the sink has taken its first bytes, and not all.
pub(crate) fn write_report<K: Sink>(sink: &mut K, report: &[u8]) -> Result<(), WriteFailed>
    ensures ok { OnOk result (K.written sink.new ≡ append_known (K.written sink.old) report.now) }
    ensures err { OnErr result (WrotePrefix (K.written sink.old) (K.written sink.new) report.now) }
    ensures faults { K.faults sink.old ≤ K.faults sink.new }
    ensures failed { OnErr result (Rose (K.faults sink.old) (K.faults sink.new)) }
{
    let mut at = 0;
    while at < report.len() {
        match sink.write(&report[at..]) {
            Put::Took(count) => at += count,
            Put::Failed => return Err(WriteFailed),
        }
    }
    Ok(())
}
