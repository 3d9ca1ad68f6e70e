// The reader that goes from record to record.
ghost use Rattle.std.specs.Prelude.{◌≡◌};

use crate::cells::CellReader;
use crate::labels::{Texts, label};
use crate::record::Record;
use crate::refusal::ImageRefusal;

// A reader of the records that a chain comes to, over the texts that their labels are parts of.
#[derive(Drop)]
pub struct RecordReader<'a, 't> {
    cells: CellReader<'a>,
    texts: Texts<'t>,
}

impl<'a, 't> RecordReader<'a, 't> {
    ghost use Rattle.image.specs.Steps.{state};
    ghost use Rattle.image.specs.Readings.{reader, reader_of, record_step, passed, told_next, reading, told_check, checked};

    // A reader of the records that the cells hold.
    pub(crate) fn new(cells: CellReader<'a>, texts: Texts<'t>) -> RecordReader<'a, 't>
        ensures { reader result ≡ reader_of texts.entry.job.now texts.entry.site.now (state cells.entry) }
    {
        RecordReader { cells, texts }
    }

    // Goes to the next record, and tells it with the number of its cell, or none at the end of the chain. A refusal leaves the
    // reader where it is.
    #[tactic(auto, unfolding(crate::specs::Readings::record_step, crate::specs::Readings::passed))]
    pub fn next_record(&mut self) -> Result<Option<(u16, Record<'a>)>, ImageRefusal>
        ensures answer { told_next result ≡ record_step (reader self.old) }
        ensures state { reader self.new ≡ passed (reader self.old) }
    {
        let Some((number, cell)) = self.cells.peek()? else {
            return Ok(None);
        };
        let record = Record::read(cell, number)?;
        if let Record::Transfer(cell) = record
            && label(cell, self.texts).is_none()
        {
            return Err(ImageRefusal::Label(number));
        }
        self.cells.pass(cell);
        Ok(Some((number, record)))
    }

    // Goes through all records that come, for the first refusal that is due.
    #[tactic(auto, using(crate::proofs::Collecting::checking))]
    pub(crate) fn run_through(self) -> Result<(), ImageRefusal>
        ensures { told_check result ≡ checked (reading (reader self.entry)) }
    {
        let mut records = self;
        while let Some((_number, _record)) = records.next_record()? {}
        Ok(())
    }
}
