// The lines of a listing.
ghost use Rattle.std.specs.Prelude.{◌≡◌, ◌++◌, IfOk, string_bytes};
ghost use Rattle.std.specs.List.{flat_map};
ghost use Rattle.failure.specs.Failures.{AnswersBy};
ghost use Rattle.image.specs.Faults.{image_fault};
ghost use Rattle.image.specs.Images.{opened};
ghost use Rattle.image.specs.Meaning.{with_texts};
ghost use Rattle.image.specs.Readings.{reader, reader_at_head, reading};
ghost use Rattle.image.specs.Records.{parts};
ghost use Rattle.listings.specs.Listings.{head_line, record_text, record_line, image_lines, listing_due};

use crate::quoted::quote;
use crossbar::digits::FiveDigits;
use image::fields::transfer;
use image::head::Head;
use image::labels::{Texts, label};
use image::opened::Image;
use image::record::Record;
use image::records::RecordReader;
use image::refusal::ImageError;
use ports::sizes::Sizes;
use ports::transfer::Transfer;
use std::alloc::{AllocError, Global};

// Adds the record, with its label where it is a transfer's.
fn write_record(text: &mut String, record: Record<'_>, texts: Texts<'_>) -> Result<(), AllocError>
    ensures { IfOk result (λ _. string_bytes text.new ≡ string_bytes text.old ++ record_text texts.entry.job.now texts.entry.site.now (parts «record».entry)) }
{
    match record {
        Record::Transfer(cell) => {
            let Transfer { sender, receiver } = transfer(cell);
            write!(text, "transfer {sender}->{receiver} ")?;
            match label(cell, texts) {
                Some(label) => quote(text, label),
                None => text.push_str("unlabelled"),
            }
        }
        Record::Note(note) => {
            text.push_str("note ")?;
            quote(text, note)
        }
        Record::Foreign(kind, _) => write!(text, "foreign {kind}"),
    }
}

// Adds the line of a record.
#[tactic(auto, unfolding(crate::specs::Listings::record_line))]
fn write_line(
    text: &mut String,
    number: u16,
    record: Record<'_>,
    texts: Texts<'_>,
) -> Result<(), AllocError>
    ensures { IfOk result (λ _. string_bytes text.new ≡ string_bytes text.old ++ record_line texts.entry.job.now texts.entry.site.now (record { number = number; parts = parts «record».entry })) }
{
    let number = FiveDigits(number);
    write!(text, "{number} ")?;
    write_record(text, record, texts)?;
    text.push('\n')
}

// The lines of the records that a reader comes to, to the end or to the first refusal.
#[tactic(auto, using(crate::proofs::Listing::listing))]
fn record_lines(
    heap: Global,
    records: RecordReader<'_, '_>,
    texts: Texts<'_>,
) -> Result<String, AllocError>
    ensures { IfOk result (λ t. string_bytes t ≡ flat_map (record_line texts.entry.job.now texts.entry.site.now) (reading (reader records.entry)).records) }
{
    let mut records = records;
    let mut text = String::new(heap);
    while let Ok(Some((number, record))) = records.next_record() {
        write_line(&mut text, number, record, texts)?;
    }
    Ok(text)
}

// The line of the head.
fn head_line(heap: Global, head: Head) -> Result<String, AllocError>
    ensures { IfOk result (λ t. string_bytes t ≡ head_line head) }
{
    let Head { sizes, rounds, .. } = head;
    let Sizes { m, n } = sizes;
    format!(in heap; "00000 head m {m} n {n} R {rounds}\n")
}

// The line of the head, and the lines of the records to the end or to the first refusal.
fn image_lines(heap: Global, image: Image<'_>, texts: Texts<'_>) -> Result<String, AllocError>
    ensures { let o = opened image.entry in let job = texts.entry.job.now in let site = texts.entry.site.now in IfOk result (λ t. string_bytes t ≡ image_lines job site o.head (reading (reader_at_head job site o)).records) }
{
    let mut text = head_line(heap, image.head())?;
    let lines = record_lines(heap, image.records(texts), texts)?;
    text.push_str(&lines)?;
    Ok(text)
}

// The listing of an image: a line of the head, and a line of each record of the chain in order.
#[tactic(auto, using(image::proofs::Images::opened_head), unfolding(image::specs::Settled::image_reading))]
pub fn listing(heap: Global, image: &[u8], texts: Texts<'_>) -> Result<String, ImageError>
    ensures { AnswersBy image_fault string_bytes result (listing_due (with_texts image.now texts.entry)) }
{
    let image = Image::open(image)?;
    image.check(texts)?;
    Ok(image_lines(heap, image, texts)?)
}
