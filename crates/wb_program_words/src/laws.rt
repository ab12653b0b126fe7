//! What do the definitions say of themselves?

ghost use Rattle.wb_program_words.specs.Laws.{AskFewLeaves, AskOneThing};

/// Words ask one thing at most.
pub fn one_asked_law()
    ensures { AskOneThing }
{}

/// A text that words ask to be made has few leaves.
pub fn few_leaves_law()
    ensures { AskFewLeaves }
{}
