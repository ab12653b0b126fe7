//! Do contents, texts and numbers allow more than one answer?
//!
//! Laws of the crates below say that there is one; here they are one law, on which those of reports rest. There is nothing to run.

ghost use Rattle.wb_program_texts.specs.Below.{LawsBelow};

use wb_compose_texts::edit_laws::one_edits_law;
use wb_compose_texts::reading_laws::one_reading_law;
use wb_compose_texts::tree_laws::{one_answer_law, withdrawn_law};
use wb_compose_texts::value_laws::{one_root_law, one_value_law};
use wb_session_edits::laws::list_law;

/// What is found of files, of unions and of their texts is one thing.
pub fn laws_below()
    ensures { LawsBelow }
{
    wb_program_files::one_extension_answer_law();
    wb_program_files::header_law();
    withdrawn_law();
    one_answer_law();
    list_law();
    one_edits_law();
    one_reading_law();
    one_root_law();
    one_value_law();
    wb_compose_texts::generated_laws::one_text_law();
    wb_program_files::one_text_law();
    wb_program_files::one_rechecked_host_law();
    wb_program_files::one_rechecked_extension_law();
}
