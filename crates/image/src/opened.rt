// An image whose length and head are right.
ghost use Rattle.std.specs.Prelude.{◌≡◌, ◌≤◌, length};

use crate::cells::{CellReader, MAX_CELLS};
use crate::head::Head;
use crate::labels::Texts;
use crate::records::RecordReader;
use crate::refusal::ImageRefusal;

// The length of the longest image.
pub const MAX_LENGTH: usize = 16 * MAX_CELLS;

// The cells of an image, and what its head says.
#[derive(Clone, Copy)]
pub struct Image<'a> {
    cells: &'a [[u8; 16]],
    head: Head,
    ghost fits: { length cells.now ≤ 2048 },
}

impl<'a> Image<'a> {
    ghost use Rattle.image.specs.Steps.{state, start};
    ghost use Rattle.image.specs.Images.{opened, opened_due, told_image};
    ghost use Rattle.image.specs.Readings.{reader, reader_at_head, reading, told_check, checked};

    // The image that the bytes are, or 15 or 16.
    #[tactic(auto, unfolding(crate::specs::Images::opened_due))]
    pub fn open(bytes: &'a [u8]) -> Result<Image<'a>, ImageRefusal>
        ensures { told_image result ≡ opened_due bytes.now }
    {
        let (cells, rest) = bytes.as_chunks::<16>();
        if !rest.is_empty() || bytes.len() > MAX_LENGTH {
            return Err(ImageRefusal::Length);
        }
        let Some(first) = cells.first() else {
            return Err(ImageRefusal::Length);
        };
        match Head::read(first) {
            Some(head) => Ok(Image { cells, head }),
            None => Err(ImageRefusal::Head),
        }
    }

    // What the head says.
    pub fn head(&self) -> Head
        ensures { result ≡ (opened self.now).head }
    {
        self.head
    }

    // A reader of the cells of the chain, at the head.
    pub fn cells(&self) -> CellReader<'a>
        ensures { let o = opened self.now in state result ≡ start o.cells o.head.first }
    {
        CellReader::new(self.cells, self.head.first)
    }

    // A reader of the records of the chain, at the head.
    pub fn records<'t>(&self, texts: Texts<'t>) -> RecordReader<'a, 't>
        ensures { reader result ≡ reader_at_head texts.entry.job.now texts.entry.site.now (opened self.now) }
    {
        RecordReader::new(self.cells(), texts)
    }

    // Goes through all records of the chain, for the first refusal that is due.
    pub fn check(&self, texts: Texts<'_>) -> Result<(), ImageRefusal>
        ensures { told_check result ≡ checked (reading (reader_at_head texts.entry.job.now texts.entry.site.now (opened self.now))) }
    {
        self.records(texts).run_through()
    }
}
