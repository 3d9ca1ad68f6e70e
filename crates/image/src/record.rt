// A record of a job image.
ghost use Rattle.std.specs.Prelude.{◌≡◌, IfOk};
ghost use Rattle.image.specs.Cells.{byte};
ghost use Rattle.image.specs.Records.{parts, kind_of, transfer_held, record_due, told_record};

use crate::fields::transfer;
use crate::refusal::ImageRefusal;
use ports::transfer::Transfer;

// A record with its part of the image.
#[derive(Clone, Copy)]
pub enum Record<'a> {
    // kind 1: the whole cell
    Transfer(&'a [u8; 16]),
    // kind 2: the text
    Note(&'a [u8]),
    // kinds 128 to 255: the kind, and what stands behind the next index
    Foreign(u8, &'a [u8]),
}

impl<'a> Record<'a> {
    // The record of a cell, whose number is told with a refusal. The label is not looked at.
    pub fn read(cell: &'a [u8; 16], number: u16) -> Result<Record<'a>, ImageRefusal>
        ensures answer { told_record result ≡ record_due number cell.now }
        ensures kind { IfOk result (λ r. kind_of (parts r) ≡ byte cell.now 0) }
    {
        match cell[0] {
            1 if cell[1] == 0 && cell[12..] == [0, 0, 0, 0] => Ok(Record::Transfer(cell)),
            2 if cell[1] == 0 => Ok(Record::Note(&cell[4..])),
            1 | 2 => Err(ImageRefusal::Spare(number)),
            kind @ 128..=255 => Ok(Record::Foreign(kind, &cell[4..])),
            _ => Err(ImageRefusal::Kind(number)),
        }
    }

    // The kind number of the record.
    pub fn kind(&self) -> u8
        ensures { result ≡ kind_of (parts self.now) }
    {
        match self {
            Record::Transfer(_) => 1,
            Record::Note(_) => 2,
            Record::Foreign(kind, _) => *kind,
        }
    }

    // The transfer of a transfer record, none for other records.
    pub fn transfer(&self) -> Option<Transfer>
        ensures { result ≡ transfer_held (parts self.now) }
    {
        match self {
            Record::Transfer(cell) => Some(transfer(cell)),
            Record::Note(_) | Record::Foreign(..) => None,
        }
    }
}
