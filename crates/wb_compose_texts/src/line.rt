//! Which line reports the text of a session?

ghost use Rattle.std.specs.Prelude.{ℕ, List, OnOk};
ghost use Rattle.wb_compose_texts.specs.Answers.{IsAnswerIn};
ghost use Rattle.wb_compose_texts.specs.Names.{terminals_of};
ghost use Rattle.wb_compose_texts.specs.Signatures.{signatures_of};
ghost use Rattle.wb_compose_texts.specs.Unions.{all_resolved};
ghost use Rattle.wb_scan_theory.specs.Languages.{LanguageView};
ghost use Rattle.wb_values.specs.Signature.{Signature};
ghost use Rattle.wb_compose_texts.specs.Inner.Gathered.{AreGathered, HasOneMore};

use crate::lines::{Lines, push_long, push_report};
use crate::{TextAnswer, united_parsed_answer};
use std::alloc::{AllocError, Global};
use wb_compose::{CertifiedExtension, CertifiedHost};
use wb_report::{Done, Outcome};
use wb_session::Session;

// Adds the line of the text of a session. Nothing is printed any more where the lines are too long.
pub(crate) fn add_line(
    alloc: Global,
    host: &CertifiedHost,
    extensions: &[CertifiedExtension],
    session: &Session<'_>,
    lines: &mut Lines,
) -> Result<(), AllocError>
    ensures { OnOk result ((before : List (List ℕ)) → AreGathered lines.old before → HasOneMore (terminals_of host.now.resolved (all_resolved extensions.now)) (signatures_of host.now.resolved (all_resolved extensions.now)) session.now.language session.now.text before lines.new) }
{
    let parsed = *session.answer();
    if lines.are_long {
        return Ok(());
    }
    let answer = united_parsed_answer(alloc, host, extensions, session.store(), parsed)?;
    push_answer(alloc, lines, answer)
}

// Adds the line of what a text is.
fn push_answer(alloc: Global, lines: &mut Lines, answer: TextAnswer) -> Result<(), AllocError>
    ensures { OnOk result ((names : List (List ℕ)) (signatures : List Signature) (l : LanguageView) (text : List ℕ) (before : List (List ℕ)) → IsAnswerIn names signatures l text answer → AreGathered lines.old before → HasOneMore names signatures l text before lines.new) }
{
    match answer {
        TextAnswer::Tree(printed) => {
            push_report(alloc, lines, Outcome::Done(Done::Tree(printed)))
        }
        TextAnswer::Stopped { at, stop } => {
            push_report(alloc, lines, Outcome::Stopped { at, stop })
        }
        TextAnswer::TooLong => {
            push_long(lines);
            Ok(())
        }
    }
}
