//! How many line feeds and characters have bytes?

ghost use Rattle.std.specs.Prelude.{◌≡◌, ◌<◌, ◌+◌, ◌^◌, cond};
ghost use Rattle.std.specs.List.{count_by, prefix_len};
ghost use Rattle.wb_explain_places.specs.Characters.{begins_character, continues_character, is_line_feed};

// How many line feeds there are.
pub(crate) fn line_feeds(bytes: &[u8]) -> usize
    ensures { result ≡ count_by is_line_feed bytes.now }
{
    let mut count = 0;
    'bytes: for byte in bytes {
        count = with_one(count, *byte == b'\n');
    }
    count
}

// How many characters begin there.
pub(crate) fn characters(bytes: &[u8]) -> usize
    ensures { result ≡ count_by begins_character bytes.now }
{
    let mut count = 0;
    'bytes: for byte in bytes {
        count = with_one(count, begins_character(*byte));
    }
    count
}

// One more where it is so.
fn with_one(count: usize, is: bool) -> usize
    requires { count + 1 < 2 ^ 64 }
    ensures { result ≡ count + cond is 1 0 }
{
    if is { count + 1 } else { count }
}

// Whether the byte begins a character.
fn begins_character(byte: u8) -> bool
    ensures { result ≡ begins_character byte }
{
    byte < 128 || byte >= 192
}

// How many bytes at the beginning are of a character that began before them.
pub(crate) fn continued(bytes: &[u8]) -> usize
    ensures { result ≡ prefix_len continues_character bytes.now }
{
    for (place, byte) in bytes.iter().enumerate() {
        if begins_character(*byte) {
            return place;
        }
    }
    bytes.len()
}
