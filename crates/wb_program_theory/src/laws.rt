//! Laws of the definitions: what each says is proved, and there is nothing to run.

ghost use Rattle.wb_program_theory.specs.Laws.{HaveOneOrder};
ghost use Rattle.wb_program_theory.specs.RunLaws.{HaveOneRun};

/// Where `tree` reports the answer of a text in the language of a host with extensions, it reports the same with these in every other
/// order: the same status, and the same bytes.
pub fn order_law()
    ensures { HaveOneOrder }
{}

/// Where `run` reports what comes of a text and an attribute in the language of a host with extensions, it reports the same with these in
/// every other order: the same status, and the same bytes. So it does where no such attribute may be asked, or the text is too long.
pub fn run_order_law()
    ensures { HaveOneRun }
{}
