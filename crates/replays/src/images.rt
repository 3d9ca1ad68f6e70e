// Job images for two lines of two nodes, and two rounds, and the names by which they are printed.
use image::labels::Texts;

// The text that the labels of the first image are parts of.
pub(crate) const TEXTS: Texts<'static> = Texts {
    job: b"lathe saw",
    site: b"",
};

// No text at all.
pub(crate) const NO_TEXTS: Texts<'static> = Texts {
    job: b"",
    site: b"",
};

// 1 to 0 with the label "lathe", and 2 to 3 with the label "saw".
pub(crate) const LABELLED: [u8; 48] = [
    0x52, 0x42, 0x4B, 0x31, 2, 2, 2, 0, 1, 0, 0, 0, 0, 0, 0, 0, // the head
    1, 0, 2, 0, 1, 0, 0, 0, 0, 0, 5, 0, 0, 0, 0, 0, // 1 to 0
    1, 0, 0, 0, 2, 0, 3, 0, 6, 0, 3, 0, 0, 0, 0, 0, // 2 to 3
];

// 0 to 1, and then 0 to 3, with empty labels.
pub(crate) const FROM_NODE_0: [u8; 48] = [
    0x52, 0x42, 0x4B, 0x31, 2, 2, 2, 0, 1, 0, 0, 0, 0, 0, 0, 0, // the head
    1, 0, 2, 0, 0, 0, 1, 0, 0, 0, 0, 0, 0, 0, 0, 0, // 0 to 1
    1, 0, 0, 0, 0, 0, 3, 0, 0, 0, 0, 0, 0, 0, 0, 0, // 0 to 3
];

// The name of an image.
pub(crate) fn image_name(image: &[u8]) -> &'static str {
    if image == LABELLED.as_slice() {
        "labelled"
    } else if image == FROM_NODE_0.as_slice() {
        "from node 0"
    } else {
        "without a name"
    }
}
