// An image from a base, and what a caller is told of it.
use failure::Failure;
use image::labels::Texts;
use listings::lines::listing;
use std::alloc::{AllocError, Global};
use std::test::Fail;

// The listing of an image, or the text of the refusal.
pub(crate) fn told(heap: Global, image: &[u8], texts: Texts<'_>) -> Result<String, AllocError> {
    match listing(heap, image, texts) {
        Ok(text) => Ok(text),
        Err(Failure::Refused(refusal)) => format!(in heap; "{refusal}"),
        Err(Failure::OutOfMemory) => Err(AllocError),
    }
}

// The bytes of a base, cut or filled with zeros to a length, with some bytes changed: each by its cell, its place there and the
// byte that it is then.
pub(crate) fn changed(
    heap: Global,
    base: &[u8],
    length: usize,
    changes: &[(u8, u8, u8)],
) -> Result<Vec<u8>, Fail> {
    let mut image = Vec::new(heap);
    image.extend_from_slice(base)?;
    image.resize(length, 0)?;
    for &(cell, place, byte) in changes {
        let there = image.get_mut(16 * usize::from(cell) + usize::from(place));
        *there.ok_or("a change outside the image")? = byte;
    }
    Ok(image)
}
