//! Laws of lists of edits: what each says is proved, and there is nothing to run.

ghost use Rattle.std.specs.Prelude.{◌≡◌, ℕ, List};
ghost use Rattle.wb_text_parts.specs.Faults.{IsFirstFault};
ghost use Rattle.wb_session_edits.specs.Edits.{IsList, IsListOf};
ghost use Rattle.wb_session_edits.specs.declared.edit.Edit.{Edit};

/// A text is a list of one list of edits at most, and then it has no fault; another has one first fault at most.
pub fn list_law()
    ensures one_list { (text : List ℕ) (edits others : List Edit) → IsListOf text edits → IsListOf text others → edits ≡ others }
    ensures no_fault { (text : List ℕ) (edits : List Edit) (at : ℕ) → IsListOf text edits → ¬ IsFirstFault IsList text at }
    ensures one_fault { (text : List ℕ) (m n : ℕ) → IsFirstFault IsList text m → IsFirstFault IsList text n → m ≡ n }
{}
