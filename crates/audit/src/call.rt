// Calls of a book, and their answers.
ghost use Rattle.std.specs.Prelude.{◌≡◌, vec_items, IfOk};
ghost use Rattle.audit.specs.Calls.{told, sheet_in};

use bookings::refusal::{BookRefusal, FitRefusal, LoadRefusal, TicketRefusal};
use image::labels::Texts;
use ports::sizes::Sizes;
use ports::transfer::Transfer;
use sheets::refusal::SheetRefusal;
use std::alloc::{AllocError, Global};

// A call of a book in either state, with what it is handed.
#[derive(Clone, Copy)]
pub enum Call<'a> {
    // the sizes and the number of rounds
    Fit(Sizes, u8),
    Book(Transfer),
    // the ticket
    Cancel(u16),
    // the image, and the texts of its labels
    Load(&'a [u8], Texts<'a>),
    Need,
    Issue,
    // the ticket
    Seat(u16),
    // the ticket
    Header(u16),
    // the round
    Sheet(u8),
    Reopen,
}

// What a call answers. `S` is what is told of a sheet: its length in the caller's buffer (`usize`), or its bytes (`Vec<u8>`).
#[derive(Drop)]
pub enum Answer<S> {
    Fit(Result<(), FitRefusal>),
    // the ticket
    Book(Result<u16, BookRefusal>),
    // the two nodes
    Cancel(Result<(u16, u16), TicketRefusal>),
    // the first ticket, and the number of transfers
    Load(Result<(u32, u16), LoadRefusal>),
    // the number of rounds
    Need(u8),
    Issue,
    // the round and the spine
    Seat(Result<(u8, u8), TicketRefusal>),
    // the three bytes
    Header(Result<(u8, u8, u8), TicketRefusal>),
    // the sheet
    Sheet(Result<S, SheetRefusal>),
    Reopen,
    // the call is one of a draft and the book is a timetable, or the other way round
    NotPermitted,
}

impl Answer<usize> {
    // The answer with the first bytes of the buffer, as many as it tells of its sheet, in place of their number. From a shorter
    // buffer it takes all bytes.
    pub fn with_sheet(self, heap: Global, buffer: &[u8]) -> Result<Answer<Vec<u8>>, AllocError>
        ensures { IfOk result (λ r. told vec_items r ≡ told (sheet_in buffer.now) self) }
    {
        Ok(match self {
            Answer::Fit(answer) => Answer::Fit(answer),
            Answer::Book(answer) => Answer::Book(answer),
            Answer::Cancel(answer) => Answer::Cancel(answer),
            Answer::Load(answer) => Answer::Load(answer),
            Answer::Need(rounds) => Answer::Need(rounds),
            Answer::Issue => Answer::Issue,
            Answer::Seat(answer) => Answer::Seat(answer),
            Answer::Header(answer) => Answer::Header(answer),
            Answer::Sheet(Ok(length)) => {
                let length = length.min(buffer.len());
                Answer::Sheet(Ok(Vec::from_slice(heap, &buffer[..length])?))
            }
            Answer::Sheet(Err(refusal)) => Answer::Sheet(Err(refusal)),
            Answer::Reopen => Answer::Reopen,
            Answer::NotPermitted => Answer::NotPermitted,
        })
    }
}
