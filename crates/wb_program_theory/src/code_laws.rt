//! Laws of the codes of refusals: what each says is proved, and there is nothing to run.

ghost use Rattle.wb_program_theory.specs.Codes as codes;
ghost use Rattle.wb_report.specs.declared.refusal.Refusal.{Refusal};

use wb_certify_files::{header_law, one_extension_answer_law};
use wb_determinism::extension_refusals_law;
use wb_program::one_status_law;

/// Where a report of words and known files has status 3 or 4, each other report of them refuses the same file with the same code; and it is
/// the same line where the code is S1, S2, S3, R1 or R2.
pub fn one_code_law()
    ensures { codes.HaveOneCode }
{
    one_extension_answer_law();
    header_law();
    extension_refusals_law();
    one_status_law();
}

/// After the file's name, a line that refuses it goes on with the code.
pub fn code_text_law()
    ensures { (refusal : Refusal) → codes.BeginsWithCode refusal }
{}
