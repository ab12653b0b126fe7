//! How are bytes written whole?
//!
//! In as many calls as the sink asks for, since it may take less than it is given.

ghost use Rattle.std.specs.Prelude.{◌≡◌, ◌≤◌, OnOk, OnErr};
ghost use Rattle.std.specs.Io.KnownBytes.{append_known};
ghost use Rattle.wb_world.specs.Cause.{Rose};
ghost use Rattle.wb_explain_lines.specs.Written.{WrotePart};

use wb_world::{Put, Sink};

/// The sink failed.
#[derive(Clone, Copy)]
pub struct WriteFailed;

/// Writes bytes. After a failure the sink has taken the first of them, and not all.
pub fn write_all<K: Sink>(sink: &mut K, bytes: &[u8]) -> Result<(), WriteFailed>
    ensures ok { OnOk result (K.written sink.new ≡ append_known (K.written sink.old) bytes.now) }
    ensures err { OnErr result (WrotePart (K.written sink.old) (K.written sink.new) bytes.now) }
    ensures faults { K.faults sink.old ≤ K.faults sink.new }
    ensures failed { OnErr result (Rose (K.faults sink.old) (K.faults sink.new)) }
{
    let mut at = 0;
    while at < bytes.len() {
        match sink.write(&bytes[at..]) {
            Put::Took(count) => at += count,
            Put::Failed => return Err(WriteFailed),
        }
    }
    Ok(())
}
