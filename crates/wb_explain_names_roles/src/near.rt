//! Are two names one edit apart: a letter more, less, or another, or two that changed places?

/// Whether two names differ by one edit.
pub fn is_near(name: &[u8], other: &[u8]) -> bool {
    if name.len() < 3 && other.len() < 3 {
        return false;
    }
    let same = common(name, other);
    is_near_after(rest_of(name, same), rest_of(other, same))
}

// How many bytes are the same at the beginning of both.
fn common(name: &[u8], other: &[u8]) -> usize {
    let most = name.len().min(other.len());
    'bytes: for place in 0..most {
        if !is_same_at(name, other, place) {
            return place;
        }
    }
    most
}

// Whether both have the same byte at a place, and have one there.
fn is_same_at(name: &[u8], other: &[u8], place: usize) -> bool {
    place < name.len() && place < other.len() && name[place] == other[place]
}

// What is left from a place on.
fn rest_of(name: &[u8], from: usize) -> &[u8] {
    if from >= name.len() {
        return &[];
    }
    &name[from..]
}

// Whether two texts whose first bytes differ are one edit apart.
fn is_near_after(rest: &[u8], other: &[u8]) -> bool {
    if rest.len() == 0 && other.len() == 0 {
        return false;
    }
    if rest_of(rest, 1) == rest_of(other, 1) {
        return true;
    }
    rest_of(rest, 1) == other || rest == rest_of(other, 1) || is_swapped(rest, other)
}

// Whether the first two bytes of both changed places, and the rest is the same.
fn is_swapped(rest: &[u8], other: &[u8]) -> bool {
    if rest.len() < 2 || other.len() < 2 {
        return false;
    }
    rest[0] == other[1] && rest[1] == other[0] && rest_of(rest, 2) == rest_of(other, 2)
}
