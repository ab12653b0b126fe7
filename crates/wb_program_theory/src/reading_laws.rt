//! Laws of texts that mean to a host with extensions what they mean to the host. There is nothing to run.

ghost use Rattle.wb_program_theory.specs.ReadingLaws as laws;
ghost use Rattle.wb_program_theory.specs.ReadingWords as words;
ghost use Rattle.wb_program_theory.specs.Reported.{HaveReadingReport};

use wb_certify_files::{header_law, one_extension_answer_law};
use wb_program::{one_status_law, one_text_law};

/// Where `reading` reports `host reading`, `tree` reports with the extensions what it reports with none: the same status, and the same
/// bytes. So does `run`, of each attribute of the host and for every number of steps.
pub fn reading_law()
    ensures tree { laws.HaveHostTree }
    ensures run { laws.HaveHostRun }
{
    one_extension_answer_law();
    header_law();
}

/// Where words ask for `reading` of files that hold a certified host and certified extensions, and the text's file is known and not too
/// long, they have a report with status 0: `host reading`, or the text's first marker. That they have none can't be.
pub fn reading_report_law()
    ensures { HaveReadingReport }
{
    one_extension_answer_law();
    header_law();
}

/// So what words report that ask for `tree` with the extensions is what words report that ask for it with none: the same status, and the
/// same bytes. And so it is with `run`, of each attribute of the host and for every number of steps.
pub fn reading_words_law()
    ensures tree { words.HaveHostTreeOfWords }
    ensures run { words.HaveHostRunOfWords }
{
    one_extension_answer_law();
    header_law();
    one_status_law();
    one_text_law();
}
