//! What does `tree --text FILE HOST EXT..` answer for a text in the language of a host with its extensions?

ghost use Rattle.std.specs.Prelude.{◌≡◌, IfOk};
ghost use Rattle.wb_compose_texts.specs.Composed.{IsComposed};
ghost use Rattle.wb_compose_texts.specs.Unions.{all_resolved};
ghost use Rattle.wb_program_texts.specs.Composable.{AreApart};
ghost use Rattle.wb_program_texts.specs.Commands.Tree.{ShownText, TextReport};

use std::alloc::{AllocError, Global};
use wb_compose_texts::{Composed, TextAnswer, compose, united_text_answer};
use wb_program_files::{Answer, CertifiedExtension, CertifiedHost, Status, reported};
use wb_report::{Done, Outcome};

// The tree of a text, or its stop, as an answer.
pub(crate) fn tree_of_text(
    alloc: Global,
    host: &CertifiedHost,
    extensions: &[CertifiedExtension],
    text: &[u8],
) -> Result<Answer, AllocError>
    requires { AreApart host.now extensions.now }
    ensures { IfOk result (λ answer. TextReport host.now.operations host.now.resolved (all_resolved extensions.now) text.now answer.status answer.report.items) }
{
    let composed = compose(alloc, host, extensions)?;
    let answer = composed_answer(alloc, host, extensions, &composed, text);
    composed.release();
    answer
}

// The answer for a text in the language that is composed.
fn composed_answer(
    alloc: Global,
    host: &CertifiedHost,
    extensions: &[CertifiedExtension],
    composed: &Composed,
    text: &[u8],
) -> Result<Answer, AllocError>
    requires { IsComposed host.now extensions.now composed.now.language.language composed.now.withdrawn.items }
    ensures { IfOk result (λ answer. TextReport host.now.operations host.now.resolved (all_resolved extensions.now) text.now answer.status answer.report.items) }
{
    let answer = united_text_answer(alloc, host, extensions, composed, text)?;
    shown_text(alloc, answer)
}

// The answer for what a text is.
fn shown_text(alloc: Global, answer: TextAnswer) -> Result<Answer, AllocError>
    ensures { IfOk result (λ made. ShownText answer made.status made.report.items) }
{
    match answer {
        TextAnswer::Tree(printed) => {
            reported(alloc, Status::Done, Outcome::Done(Done::Tree(printed)))
        }
        TextAnswer::Stopped { at, stop } => {
            reported(alloc, Status::TextStopped, Outcome::Stopped { at, stop })
        }
        TextAnswer::TooLong => reported(alloc, Status::TooLongToPrint, Outcome::TooLongToPrint),
    }
}
