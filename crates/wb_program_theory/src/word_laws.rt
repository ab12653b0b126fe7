//! Laws of words: what each says is proved, and there is nothing to run.

ghost use Rattle.wb_program_theory.specs.WordLaws as words;

/// Words that ask for `tree` have the report of a text's answer just as words that ask for it with the extensions in another order: the same
/// status, and the same bytes.
pub fn tree_words_law()
    ensures { words.HaveOneTreeOfWords }
{}

/// Words that ask for `run` have the report of what comes of a text and an attribute just as words that ask for it with the extensions in
/// another order: the same status, and the same bytes.
pub fn run_words_law()
    ensures { words.HaveOneRunOfWords }
{}
