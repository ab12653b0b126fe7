//! What does `reading --text FILE HOST EXT..` answer for a text in the language of a host with its extensions?

ghost use Rattle.std.specs.Prelude.{◌≡◌, IfOk};
ghost use Rattle.wb_compose_texts.specs.Unions.{all_resolved};
ghost use Rattle.wb_program_texts.specs.Composable.{AreApart};
ghost use Rattle.wb_program_texts.specs.Commands.Reading.{ShownReading, TextReadingReport};

use std::alloc::{AllocError, Global};
use wb_compose_texts::{TextReading, union_reading};
use wb_program_files::{Answer, CertifiedExtension, CertifiedHost, Status, reported};
use wb_report::{Done, Outcome};

// The reading of a text, as an answer.
pub(crate) fn reading_of_text(
    alloc: Global,
    host: &CertifiedHost,
    extensions: &[CertifiedExtension],
    text: &[u8],
) -> Result<Answer, AllocError>
    requires { AreApart host.now extensions.now }
    ensures { IfOk result (λ answer. TextReadingReport host.now.operations host.now.resolved (all_resolved extensions.now) text.now answer.status answer.report.items) }
{
    let reading = union_reading(alloc, host, extensions, text)?;
    shown_reading(alloc, reading)
}

// The answer for what is read of a text.
fn shown_reading(alloc: Global, reading: TextReading) -> Result<Answer, AllocError>
    ensures { IfOk result (λ made. ShownReading reading made.status made.report.items) }
{
    match reading {
        TextReading::Host => reported(alloc, Status::Done, Outcome::Done(Done::HostReading)),
        TextReading::MarkerAt { at, marker } => reported(
            alloc,
            Status::Done,
            Outcome::Done(Done::MarkerAt { marker, at }),
        ),
    }
}
