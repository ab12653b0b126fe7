//! Where does the line of a place begin, and where does it end?

ghost use Rattle.std.specs.Prelude.{◌≤◌, length};
ghost use Rattle.wb_explain_places.specs.Inner.Ends.{IsLineEnd};
ghost use Rattle.wb_explain_places.specs.LineStarts.{IsLineStart};

// Where the line begins.
pub(crate) fn line_start(text: &[u8], at: usize) -> usize
    requires { at ≤ length text.now }
    ensures { IsLineStart text.now at result }
{
    let mut start = at;
    while start > 0 && text[start - 1] != b'\n' {
        start -= 1;
    }
    start
}

// Where the line ends.
pub(crate) fn line_end(text: &[u8], at: usize) -> usize
    requires { at ≤ length text.now }
    ensures { IsLineEnd text.now at result }
{
    let mut end = at;
    while end < text.len() && text[end] != b'\n' {
        end += 1;
    }
    end
}
