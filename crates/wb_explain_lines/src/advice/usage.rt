//! How is each command written?

use super::Advice;

pub(crate) static COMMANDS: [Advice; 12] = [
    Advice {
        of: "value",
        text: "value HOST TERM ATTR",
    },
    Advice {
        of: "show",
        text: "show SPEC",
    },
    Advice {
        of: "check",
        text: "check HOST",
    },
    Advice {
        of: "certify",
        text: "certify HOST EXT..",
    },
    Advice {
        of: "compose",
        text: "compose HOST EXT..",
    },
    Advice {
        of: "tree",
        text: "tree --text FILE HOST EXT..",
    },
    Advice {
        of: "run",
        text: "run --text FILE --attr NAME [--steps N] HOST EXT..",
    },
    Advice {
        of: "generate",
        text: "generate --number N --size K --attr NAME HOST EXT..",
    },
    Advice {
        of: "certificate",
        text: "certificate HOST [EXT]",
    },
    Advice {
        of: "recheck",
        text: "recheck HOST CERT [EXT CERT]",
    },
    Advice {
        of: "edit",
        text: "edit --text FILE --edits FILE HOST EXT..",
    },
    Advice {
        of: "reading",
        text: "reading --text FILE HOST EXT..",
    },
];
