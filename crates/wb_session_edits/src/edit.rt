//! What does one line of a list of edits say?

use wb_base::Bytes;

/// The bytes of a text from the one place to the other become these.
pub struct Edit {
    pub from: usize,
    pub to: usize,
    pub bytes: Bytes,
}

impl Drop for Edit {
    fn drop(self) {
        let Edit {
            from: _,
            to: _,
            bytes,
        } = self;
        drop(bytes);
    }
}
