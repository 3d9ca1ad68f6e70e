// The load of a table: the transfers of a job image, all or none.
ghost use Rattle.std.specs.Prelude.{◌≡◌, ◌≤◌, length, take};
ghost use Rattle.image.specs.Meaning.{with_texts};
ghost use Rattle.image.specs.Readings.{reader, reading};
ghost use Rattle.image.specs.Records.{parts};
ghost use Rattle.bookings.specs.Faults.{told_load};
ghost use Rattle.bookings.specs.Loading.{record_booked, reading_booked, image_booked, load_due, loaded, Adds};
ghost use Rattle.bookings.specs.Model.{Rising};
ghost use Rattle.bookings.specs.Steps.{come_to, Follows, taken_back};
ghost use Rattle.bookings.specs.Tables.{model};

use super::Table;
use crate::refusal::LoadRefusal;
use image::head::Head;
use image::labels::Texts;
use image::opened::Image;
use image::record::Record;
use image::records::RecordReader;

impl Table {
    // Books the transfer of a record, whose cell is told with a refusal. A record without a transfer changes nothing.
    #[tactic(auto, using(crate::proofs::Loading::following))]
    fn book_record(&mut self, cell: u16, found: Record<'_>) -> Result<(), LoadRefusal>
        ensures answer { come_to result (model self.new) ≡ record_booked (model self.old) (record { number = cell; parts = parts found.entry }) }
        ensures follows { Follows (model self.old) (model self.new) }
    {
        let Some(transfer) = found.transfer() else {
            return Ok(());
        };
        match self.book(transfer) {
            Ok(_) => Ok(()),
            Err(refusal) => Err(LoadRefusal::Booking(cell, refusal)),
        }
    }

    // Books the transfers of all records that a reader comes to, up to the first fault. What was booked before it stays.
    #[tactic(auto, using(crate::proofs::Loading::loading))]
    fn book_records(&mut self, records: RecordReader<'_, '_>) -> Result<(), LoadRefusal>
        ensures answer { come_to result (model self.new) ≡ reading_booked (model self.old) (reading (reader records.entry)) }
        ensures follows { Follows (model self.old) (model self.new) }
    {
        let mut records = records;
        while let Some((cell, record)) = records.next_record()? {
            self.book_record(cell, record)?;
        }
        Ok(())
    }

    // Takes the last live transfers out, until only so many are left, and sets how many tickets have been given.
    fn take_back(&mut self, count: usize, given: u16)
        requires count { count ≤ length (model self.old).live }
        requires rising { Rising given (take count (model self.old).live) }
        ensures { model self.new ≡ taken_back (model self.old) count given }
    {
        while self.live.len() > count {
            let last = self.live.len() - 1;
            self.take_out(last);
        }
        self.given = given;
    }

    // Books the transfers of an image of these sizes and rounds, up to the first fault. What was booked before it stays.
    #[tactic(auto, unfolding(crate::specs::Loading::image_booked, image::specs::Settled::image_reading))]
    fn book_image(&mut self, image: &[u8], texts: Texts<'_>) -> Result<(), LoadRefusal>
        ensures answer { come_to result (model self.new) ≡ image_booked (model self.old) (with_texts image.now texts.entry) }
        ensures follows { Follows (model self.old) (model self.new) }
    {
        let image = Image::open(image)?;
        let Head { sizes, rounds, .. } = image.head();
        if sizes != self.sizes || rounds != self.rounds {
            return Err(LoadRefusal::Sizes);
        }
        self.book_records(image.records(texts))
    }

    // Books the transfers of a job image in the order of its chain, all or none, and answers the first ticket and how many
    // there are; where there are none, the next ticket, which can be 65,536.
    #[tactic(auto, using(crate::proofs::Adding::answering))]
    pub fn load(&mut self, image: &[u8], texts: Texts<'_>) -> Result<(u32, u16), LoadRefusal>
        ensures answer { told_load result ≡ load_due (model self.old) (with_texts image.now texts.entry) }
        ensures table { model self.new ≡ loaded (model self.old) (with_texts image.now texts.entry) }
        ensures adds { Adds (model self.old) (with_texts image.now texts.entry) (told_load result) (model self.new) }
    {
        let given = self.given;
        let count = self.live.len();
        if let Err(refusal) = self.book_image(image, texts) {
            self.take_back(count, given);
            return Err(refusal);
        }
        Ok((u32::from(given) + 1, self.given - given))
    }
}
