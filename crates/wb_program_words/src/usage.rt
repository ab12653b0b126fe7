//! What is written for words that ask for no command?

ghost use Rattle.std.specs.Prelude.{◌≡◌};
ghost use Rattle.wb_program_words.specs.Usage.{usage_line};

/// The line for words that ask for no command, which names the first words of those that do.
pub fn usage_line() -> &'static str
    ensures { result.now ≡ usage_line }
{
    "usage: workbench value|show|check|certify|compose|tree|run|generate|certificate|recheck|edit|reading ARGUMENTS\n"
}
