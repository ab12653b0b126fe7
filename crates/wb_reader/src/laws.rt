//! A law of the definitions: what it says is proved, and there is nothing to run.

ghost use Rattle.wb_reader.specs.OneAnswer.{HasOneAnswer};

/// Bytes have one answer as a specification: the causes of refusals exclude each other, and each excludes that the bytes are taken.
pub fn one_answer_law()
    ensures { HasOneAnswer }
{}
