//! Laws of certified files: each says that there is no refusal of them, and what a run on them comes to. There is nothing to run.

ghost use Rattle.std.specs.Prelude.{ℕ, List};
ghost use Rattle.wb_operations.specs.Operations.{OperationSignature, Operations};
ghost use Rattle.wb_program_theory.specs.Certified as certified;
ghost use Rattle.wb_program_theory.specs.Completeness as complete;
ghost use Rattle.wb_program_theory.specs.Existence.{ComesToAnswer};
ghost use Rattle.wb_program_theory.specs.Reported as reported;
ghost use Rattle.wb_syntax_resolved.specs.declared.resolved.ResolvedParts.{ResolvedParts};
ghost use Rattle.wb_world.specs.Shelf.{Files};

use wb_certify_files::{header_law, one_extension_answer_law};
use wb_program::{one_status_law, one_text_law};

/// Where files hold a certified host and at most 64 extensions, each certified with it and named apart, `compose`, `tree`, `run`,
/// `generate`, `certificate`, `edit` and `reading` refuse nothing: no report of theirs has status 3, 4, 14, 15 or 16. What they report is what comes after these
/// checks, of the one host and the extensions that the files hold.
pub fn no_refusal_law()
    ensures accepted { (operations : Operations) (files : Files) (host : List ℕ) (extensions : List (List ℕ)) (r : ResolvedParts) (values : List ResolvedParts) → certified.AreCertified operations.signatures files host extensions r values → certified.HaveNoRefusal operations files host extensions r values }
    ensures one { (operations : List OperationSignature) (files : Files) (host : List ℕ) (extensions : List (List ℕ)) (r : ResolvedParts) (values : List ResolvedParts) → certified.AreCertified operations files host extensions r values → certified.HaveOneValue operations files host extensions r values }
{
    one_extension_answer_law();
    header_law();
}

/// Such files have a language, in which each text has a tree or a stop: that there is none can't be.
pub fn text_answer_law()
    ensures { (operations : List OperationSignature) (files : Files) (host : List ℕ) (extensions : List (List ℕ)) (r : ResolvedParts) (values : List ResolvedParts) → certified.AreCertified operations files host extensions r values → (text : List ℕ) → ¬ ¬ ComesToAnswer operations r values text }
{}

/// Where words and known files have a report that refuses no specification, a run writes it and ends with its status. Else a write fails,
/// and a part of it is written, or nothing is, where the run ends at a file or out of memory.
pub fn written_law()
    ensures { complete.WriteAsReported }
{
    one_status_law();
    one_text_law();
}

/// On such files, `run` ends with 0 and writes the value of the attribute, where the text has a tree, the attribute has a value at its root
/// that isn't too long to print, and the steps are enough for it. Else the run ends at a file, at the output or out of memory.
pub fn run_comes_law()
    ensures { complete.RunComesToValue }
{
    one_extension_answer_law();
    header_law();
    one_status_law();
    one_text_law();
}

/// Where the text has a tree and the attribute such a value, some number of steps is enough for it, and so is each greater one.
pub fn enough_steps_law()
    ensures { complete.HaveEnoughSteps }
{}

/// Where words ask for `tree` of such files, and the text's file is known and not too long, they have a report of the text's answer: its
/// printed tree, its stop, or that the tree is too long to print. That they have none can't be.
pub fn tree_report_law()
    ensures { reported.HaveTreeReport }
{
    one_extension_answer_law();
    header_law();
}

/// Where words ask for `check` and the file holds a certified host, they have a report with status 0; and so have words that ask for
/// `certify` or `compose` where files are certified, and for `certificate` with status 0 or 13. Of `compose` and `certificate` it is said
/// that they have none can't be. Words that ask for `recheck` have one with status 0 where each file is certified by its certificate.
pub fn line_report_law()
    ensures check { reported.HaveCheckReport }
    ensures certify { reported.HaveCertifyReport }
    ensures compose { reported.HaveComposeReport }
    ensures certificate { reported.HaveCertificateReport }
    ensures recheck { reported.HaveRecheckReport }
    ensures rechecked_extension { reported.HaveRecheckedExtensionReport }
{
    one_extension_answer_law();
    header_law();
}

/// Where words ask for `edit` of such files, the text's file is known and not too long, and the file of edits is there, they have a report
/// with status 0, 13 or 21. That they have none can't be.
pub fn edit_report_law()
    ensures { reported.HaveEditReport }
{
    one_extension_answer_law();
    header_law();
}

/// Where words ask for `run` of such files, the text's file is there, and operations take and give plain values of their kinds, they have a
/// report of what comes of the text and the attribute: that the attribute may not be asked, that the text is too long, the text's stop, the
/// attribute's value, a value too long to print, a fault, or that more steps are needed. That they have none can't be.
pub fn run_report_law()
    ensures { reported.HaveRunReport }
{
    one_extension_answer_law();
    header_law();
}

/// Where words ask for `generate` of such files, each of whose terminals matches some text, and operations take and give plain values of
/// their kinds, they have a report: that the attribute may not be asked, that each text has more leaves, that the text is too long, or what
/// comes of the text and the attribute. That they have none can't be.
pub fn generate_report_law()
    ensures { reported.HaveGenerateReport }
{
    one_extension_answer_law();
    header_law();
}

/// So words that ask for `check`, `certify`, `compose`, `certificate`, `tree`, `run`, `generate`, `edit` or `reading` of certified files have
/// a report, where a text's file is there, and that of its edits, or each terminal matches some text: that they have none can't be.
pub fn report_law()
    ensures { reported.HaveReports }
{
    one_extension_answer_law();
    header_law();
}
