//! Which commands are there, and with which options and how many words after them?
//!
//! A row for each command, and one for each option; `words` reads the rows. What a verb asks is in `specs/Rows`.

ghost use Rattle.std.specs.Prelude.{◌≡◌, ◌≢◌, ◌≤◌, IfSome, IfNone, length};
ghost use Rattle.wb_program_words.specs.Rows.{form_of, name_of, row_of};

/// The first word of a command line.
#[derive(Clone, Copy)]
pub enum Verb {
    Value,
    Show,
    Check,
    Certify,
    Compose,
    Tree,
    Run,
    Generate,
    Certificate,
    Recheck,
    Edit,
    Reading,
}

/// An option, by what its value is.
#[derive(Clone, Copy)]
pub enum OptionName {
    Text,
    Attribute,
    Steps,
    Number,
    Size,
    Edits,
}

/// What the value of an option is.
#[derive(Clone, Copy)]
pub enum Form {
    /// A word as it is written.
    Word,
    /// A number within these bounds.
    Number {
        least: u64,
        most: u64,
    },
    /// Such a number, or this one where the option isn't given.
    NumberOr {
        least: u64,
        most: u64,
        otherwise: u64,
    },
}

/// How many positional words there are.
#[derive(Clone, Copy)]
pub enum Count {
    Exactly(usize),
    Either(usize, usize),
    From(usize),
}

// The options of a verb and how many positional words come after them.
#[derive(Clone, Copy)]
pub(crate) struct Row {
    pub options: &'static [OptionName],
    pub words: Count,
}

// The most options of a row.
pub(crate) const MOST_OPTIONS: usize = 3;

// No options.
static NONE: [OptionName; 0] = [];

// The options of a command that reads a text.
static OF_TEXT: [OptionName; 1] = [OptionName::Text];

// Those of `run`.
static OF_RUN: [OptionName; 3] = [OptionName::Text, OptionName::Attribute, OptionName::Steps];

// Those of `edit`.
static OF_EDIT: [OptionName; 2] = [OptionName::Text, OptionName::Edits];

// Those of `generate`.
static OF_GENERATE: [OptionName; 3] = [OptionName::Number, OptionName::Size, OptionName::Attribute];

// The row of a verb.
pub(crate) fn row_of(verb: Verb) -> Row
    ensures options { result.options.now ≡ (row_of verb).options }
    ensures words { result.words ≡ (row_of verb).words }
    ensures few { length result.options.now ≤ 3 }
{
    match verb {
        Verb::Value => row_with(&NONE, Count::Exactly(3)),
        Verb::Show => row_with(&NONE, Count::Exactly(1)),
        Verb::Check => row_with(&NONE, Count::Exactly(1)),
        Verb::Certify => row_with(&NONE, Count::From(1)),
        Verb::Compose => row_with(&NONE, Count::From(1)),
        Verb::Tree => row_with(&OF_TEXT, Count::From(1)),
        Verb::Run => row_with(&OF_RUN, Count::From(1)),
        Verb::Generate => row_with(&OF_GENERATE, Count::From(1)),
        Verb::Certificate => row_with(&NONE, Count::Either(1, 2)),
        Verb::Recheck => row_with(&NONE, Count::Either(2, 4)),
        Verb::Edit => row_with(&OF_EDIT, Count::From(1)),
        Verb::Reading => row_with(&OF_TEXT, Count::From(1)),
    }
}

// A row of its parts.
fn row_with(options: &'static [OptionName], words: Count) -> Row
    ensures options { result.options.now ≡ options.now }
    ensures words { result.words ≡ words }
{
    Row { options, words }
}

// The verb that a word is.
pub(crate) fn verb_of(word: &str) -> Option<Verb>
    ensures some { IfSome result (λ verb. word.now ≡ (row_of verb).verb) }
    ensures none { IfNone result ((verb : Verb) → word.now ≢ (row_of verb).verb) }
{
    match word {
        "value" => Some(Verb::Value),
        "show" => Some(Verb::Show),
        "check" => Some(Verb::Check),
        "certify" => Some(Verb::Certify),
        "compose" => Some(Verb::Compose),
        "tree" => Some(Verb::Tree),
        "run" => Some(Verb::Run),
        "generate" => Some(Verb::Generate),
        "certificate" => Some(Verb::Certificate),
        "recheck" => Some(Verb::Recheck),
        "edit" => Some(Verb::Edit),
        "reading" => Some(Verb::Reading),
        _ => None,
    }
}

// How an option is named.
pub(crate) fn name_of(option: OptionName) -> &'static str
    ensures { result.now ≡ name_of option }
{
    match option {
        OptionName::Text => "text",
        OptionName::Attribute => "attr",
        OptionName::Steps => "steps",
        OptionName::Number => "number",
        OptionName::Size => "size",
        OptionName::Edits => "edits",
    }
}

// What the value of an option is.
pub(crate) fn form_of(option: OptionName) -> Form
    ensures { result ≡ form_of option }
{
    match option {
        OptionName::Text => Form::Word,
        OptionName::Attribute => Form::Word,
        OptionName::Steps => Form::NumberOr {
            least: 1,
            most: 10_000_000,
            otherwise: 1_000_000,
        },
        OptionName::Number => Form::Number {
            least: 0,
            most: u64::MAX,
        },
        OptionName::Size => Form::Number {
            least: 0,
            most: 100_000,
        },
        OptionName::Edits => Form::Word,
    }
}
