//! In which line and column is a place of a text? One place after the other is asked, so that the text is gone through once.

ghost use Rattle.std.specs.Prelude.{◌≡◌, ◌≤◌, ◌<◌, ◌+◌, length};
ghost use Rattle.wb_explain_places.specs.Characters.{begins_character, is_line_feed};
ghost use Rattle.wb_explain_drawing.specs.Inner.Bytes.{IsByteAt};
ghost use Rattle.wb_explain_drawing.specs.Reached.{IsReached};

/// A place of a text, and the numbers of its line and of its column, which count from 1. Columns count characters of UTF-8.
#[derive(Clone, Copy)]
pub struct Cursor {
    /// The place, counted in bytes from 0.
    pub at: usize,
    /// Where its line begins.
    pub start: usize,
    /// The number of its line.
    pub line: usize,
    /// The number of its column.
    pub column: usize,
}

impl Cursor {
    /// The beginning of a text.
    pub fn begin(text: &[u8]) -> Cursor
        ensures { IsReached text.now result }
    {
        let _count = text.len();
        Cursor {
            at: 0,
            start: 0,
            line: 1,
            column: 1,
        }
    }

    /// The cursor at a place of its text, or where it is, if the place is before it.
    pub fn moved(self, text: &[u8], to: usize) -> Cursor
        requires reached { IsReached text.now self }
        requires within { to ≤ length text.now }
        ensures reached { IsReached text.now result }
        ensures at { self.at ≤ to → result.at ≡ to }
    {
        let mut cursor = self;
        'bytes: while cursor.at < to {
            cursor = after(cursor, text, text[cursor.at]);
        }
        cursor
    }
}

// The cursor after one byte more.
fn after(cursor: Cursor, text: &[u8], byte: u8) -> Cursor
    requires reached { IsReached text.now cursor }
    requires within { cursor.at < length text.now }
    requires is { IsByteAt text.now cursor.at byte }
    ensures reached { IsReached text.now result }
    ensures at { result.at ≡ cursor.at + 1 }
{
    let _count = text.len();
    let at = cursor.at + 1;
    let ends = is_line_feed(byte);
    if ends {
        return Cursor {
            at,
            start: at,
            line: cursor.line + 1,
            column: 1,
        };
    }
    let begins = begins_character(byte);
    if begins {
        return Cursor {
            at,
            start: cursor.start,
            line: cursor.line,
            column: cursor.column + 1,
        };
    }
    Cursor {
        at,
        start: cursor.start,
        line: cursor.line,
        column: cursor.column,
    }
}

// Whether the byte ends a line.
fn is_line_feed(byte: u8) -> bool
    ensures { result ≡ is_line_feed byte }
{
    byte == b'\n'
}

// Whether the byte begins a character.
fn begins_character(byte: u8) -> bool
    ensures { result ≡ begins_character byte }
{
    byte < 128 || byte >= 192
}
