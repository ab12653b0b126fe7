//! How can a run end?
//!
//! Each status has a number of its own, so that a script can tell them apart. Which comes when is in the crates above.

ghost use Rattle.std.specs.Prelude.{◌≡◌};
ghost use Rattle.wb_program_files.specs.StatusNumber.{number_of};

/// How a run ended.
#[derive(Clone, Copy, PartialEq, Eq)]
pub enum Status {
    /// The report of the command was written whole.
    Done = 0,
    /// The words are no command.
    Usage = 2,
    /// A file isn't a specification of the form that the command asks for.
    SpecRefused = 3,
    /// A rule of grammars, scanners or attributes fails for a host or an extension.
    NotCertified = 4,
    /// The text stops: it has no tree.
    TextStopped = 5,
    /// The answer of the evaluation is the fault of an operation.
    OperationFault = 6,
    /// The evaluation needs more steps than it is given.
    MoreSteps = 7,
    /// A file that the words name wasn't found.
    Absent = 8,
    /// A file that the words name couldn't be read.
    ReadFault = 9,
    /// The report couldn't be written whole.
    WriteFault = 10,
    /// Memory ran out.
    NoMemory = 11,
    /// The text or term has more bytes than one may have.
    TextTooLong = 12,
    /// The printed value or tree has more bytes than are printed.
    TooLongToPrint = 13,
    /// The words name too many extensions.
    TooManyExtensions = 14,
    /// Two extensions have one name.
    DuplicateExtension = 15,
    /// An extension is for another host.
    WrongHost = 16,
    /// No synthesized attribute of that name can be asked for at the root.
    UnknownAttribute = 17,
    /// A file isn't a term of its host.
    TermRefused = 18,
    /// No sentence has so few leaves as a text that is made may have.
    NoSentence = 19,
    /// A file isn't a certificate of its host or extension, or is too long for one.
    CertificateRefused = 20,
    /// A file isn't a list of edits, or one of them isn't done.
    EditRefused = 21,
}

impl Status {
    /// The number that the process ends with.
    pub fn number(self) -> u8
        ensures { result ≡ number_of self }
    {
        self as u8
    }
}
