//! Where is each leaf of a text?

use std::alloc::{AllocError, Global};
use wb_base::FILE_LIMIT;
use wb_scan::Language;
use wb_session::KeptText;

// The places of the leaves of a text, from left to right. None of a text that is too long.
pub(crate) fn places_of(
    alloc: Global,
    language: &Language,
    text: &[u8],
) -> Result<Vec<usize>, AllocError> {
    if text.len() > FILE_LIMIT {
        return Ok(Vec::new(alloc));
    }
    let kept = KeptText::open(alloc, language, text)?;
    let answer = listed(alloc, &kept);
    drop(kept);
    answer
}

// The places of the leaves that were read.
fn listed(alloc: Global, kept: &KeptText) -> Result<Vec<usize>, AllocError> {
    let mut places = Vec::new(alloc);
    match push_places(&mut places, kept) {
        Ok(()) => Ok(places),
        Err(error) => {
            drop(places);
            Err(error)
        }
    }
}

// Appends them.
fn push_places(places: &mut Vec<usize>, kept: &KeptText) -> Result<(), AllocError> {
    'leaves: for leaf in 0..kept.leaves() {
        if let Some(place) = kept.place_of(leaf) {
            places.push(place.begin)?;
        }
    }
    Ok(())
}
