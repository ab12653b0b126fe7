//! Which new kernels have sets that grew and are still to be passed on? No promise rests on it.

// Puts a mark at a kernel.
pub(crate) fn mark(marks: &mut Vec<bool>, place: usize) {
    if place < marks.len() {
        marks[place] = true;
    }
}

// Takes the mark of a kernel away, and answers whether it had one.
pub(crate) fn take_mark(marks: &mut Vec<bool>, place: usize) -> bool {
    if place < marks.len() && marks[place] {
        marks[place] = false;
        true
    } else {
        false
    }
}
