// The transfers of an image.
ghost use Rattle.std.specs.Prelude.{◌≡◌, IfOk, vec_items};
ghost use Rattle.failure.specs.Failures.{AnswersBy};
ghost use Rattle.image.specs.Faults.{image_fault};
ghost use Rattle.image.specs.Meaning.{with_texts, transfers};
ghost use Rattle.image.specs.Readings.{reader, reading};
ghost use Rattle.image.specs.Settled.{transfers_due, IsSettled, Tells};

use crate::labels::Texts;
use crate::opened::Image;
use crate::records::RecordReader;
use crate::refusal::ImageError;
use ports::transfer::Transfer;
use std::alloc::{AllocError, Global};

// The transfers of the records that a reader comes to, to the end or to the first refusal.
#[tactic(auto, using(crate::proofs::Collecting::collecting))]
fn collect(heap: Global, records: RecordReader<'_, '_>) -> Result<Vec<Transfer>, AllocError>
    ensures { IfOk result (λ v. v.items ≡ transfers (reading (reader records.entry)).records) }
{
    let mut records = records;
    let mut found = Vec::new(heap);
    while let Ok(Some((_, record))) = records.next_record() {
        if let Some(transfer) = record.transfer() {
            found.push(transfer)?;
        }
    }
    Ok(found)
}

// The transfers that an image means, in the order of its chain, or the first refusal that is due.
#[tactic(auto, using(crate::proofs::Settled::settled, crate::proofs::Settled::tells), unfolding(crate::specs::Settled::image_reading))]
pub fn read_transfers(
    heap: Global,
    image: &[u8],
    texts: Texts<'_>,
) -> Result<Vec<Transfer>, ImageError>
    ensures answer { AnswersBy image_fault vec_items result (transfers_due (with_texts image.now texts.entry)) }
    ensures tells { Tells (with_texts image.now texts.entry) vec_items result }
    ensures settled { IsSettled (with_texts image.now texts.entry) }
{
    let image = Image::open(image)?;
    image.check(texts)?;
    Ok(collect(heap, image.records(texts))?)
}
