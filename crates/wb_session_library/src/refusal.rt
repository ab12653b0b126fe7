//! Why is a call refused?

ghost use Rattle.std.specs.Prelude.{◌≡◌};
ghost use Rattle.wb_session_library.specs.Numbers.{number_of};

/// Why a call is refused. What the program has a status for has its number.
#[derive(Clone, Copy, Debug, PartialEq, Eq)]
pub enum CallRefusal {
    /// The contents aren't a specification of the form that is asked for.
    SpecRefused = 3,
    /// A rule of grammars, scanners or attributes fails.
    NotCertified = 4,
    /// The text stops: it has no tree.
    TextStopped = 5,
    /// The answer of the evaluation is the fault of an operation.
    OperationFault = 6,
    /// The evaluation needs more steps than it is given.
    MoreSteps = 7,
    /// Memory ran out.
    NoMemory = 11,
    /// The text has, or would have, more than 1,048,576 bytes.
    TextTooLong = 12,
    /// What is to be printed has more than 16,777,216 bytes.
    TooLongToPrint = 13,
    /// Two extensions have one name.
    DuplicateExtension = 15,
    /// The extension is for another host.
    WrongHost = 16,
    /// No attribute of that name can be asked for at the root.
    UnknownAttribute = 17,
    /// The places of an edit are not in order, or the second is past the end of the text.
    EditRefused = 21,
    /// No value of the sort that is asked for has this handle: it never had one, or it was let go.
    WrongHandle = 32,
    /// There are too many values of this sort.
    Full = 33,
    /// The text was parsed alone, and isn't kept to be edited.
    NotKept = 34,
    /// There is no such number.
    OutOfRange = 35,
}

impl CallRefusal {
    /// The number that C gets.
    pub fn number(self) -> u32
        ensures { result ≡ number_of self }
    {
        self as u32
    }
}
