//! Do words and files allow more than one report?
//!
//! The contract of `workbench` says that what is written is a report; these say that there is one at most. There is nothing to run.

ghost use Rattle.wb_program.specs.Laws.{EndAsReported, HaveOneStatus, HaveOneText};
ghost use Rattle.wb_program.specs.ShownAgain.{IsStable};

use wb_program_texts::laws_below;

/// Words and files have at most one status that is reported.
pub fn one_status_law()
    ensures { HaveOneStatus }
{
    laws_below();
}

/// Words and files have at most one text with a status, but where a refusal may show any true example.
pub fn one_text_law()
    ensures { HaveOneText }
{
    laws_below();
}

/// Where words and known files have a report, a run ends with its status: with 0 where everything is in order. Else it ends at a file or at
/// the output, or when memory runs out.
pub fn complete_law()
    ensures { EndAsReported }
{
    laws_below();
}

/// The canonical text of a specification is read as the same one but for places, and is the one canonical text of that, so that
/// it is shown as it is. Where it is too long, it is refused for that, and for nothing else.
pub fn shown_again_law()
    ensures { IsStable }
{}
