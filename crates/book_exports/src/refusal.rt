// Why transfers that stand in bytes get no seats.
ghost use Rattle.std.specs.Prelude.{◌≡◌};
ghost use Rattle.failure.specs.declared.Failure.TheVariants.{Refused};
ghost use Rattle.book_exports.specs.declared.refusal.TurnRefusal.TheVariants.{Fit, Booking};
ghost use Rattle.book_exports.specs.declared.refusal.FillRefusal.TheVariants.{Turn};
ghost use Rattle.book_exports.specs.Filling.{turn_refusal, fill_code};

use bookings::refusal::{BookRefusal, FitRefusal};
use failure::Failure;

// Why the turns of a book end early.
#[derive(Clone, Copy, PartialEq, Eq, Debug)]
pub enum TurnRefusal {
    // the sizes and the number of rounds are not set
    Fit(FitRefusal),
    // a transfer is not booked
    Booking(BookRefusal),
}

// These two are written by hand, since derived ones would not tell which case they give.
impl From<FitRefusal> for TurnRefusal {
    ghost from_gives = { λ e r. r ≡ Fit e };

    fn from(e: FitRefusal) -> TurnRefusal {
        TurnRefusal::Fit(e)
    }
}

impl From<BookRefusal> for TurnRefusal {
    ghost from_gives = { λ e r. r ≡ Booking e };

    fn from(e: BookRefusal) -> TurnRefusal {
        TurnRefusal::Booking(e)
    }
}

impl TurnRefusal {
    // The number that docs/REFUSALS.md gives the refusal.
    fn number(self) -> u8
        ensures { result ≡ (turn_refusal self).number }
    {
        match self {
            TurnRefusal::Fit(refusal) => refusal.number(),
            TurnRefusal::Booking(refusal) => refusal.number(),
        }
    }
}

// Why the bytes are refused.
#[derive(Clone, Copy, PartialEq, Eq, Debug)]
pub enum FillRefusal {
    // they are no whole transfers
    BrokenTransfer,
    // the book refuses their sizes or one of them
    Turn(TurnRefusal),
}

// Why no seats are put into the bytes: they are refused, or there is no memory.
pub type FillError = Failure<FillRefusal>;

// A refusal of the book, as why no seats are put into the bytes; by hand for the same reason.
impl From<TurnRefusal> for Failure<FillRefusal> {
    ghost from_gives = { λ e r. r ≡ Refused (Turn e) };

    fn from(e: TurnRefusal) -> FillError {
        Failure::Refused(FillRefusal::Turn(e))
    }
}

// What C is told: 0 where the seats stand in the bytes, the number of the book's refusal, or 255.
pub(crate) fn fill_code(filled: Result<(), FillError>) -> u8
    ensures { result ≡ fill_code filled }
{
    match filled {
        Ok(()) => 0,
        Err(Failure::Refused(FillRefusal::Turn(refusal))) => refusal.number(),
        Err(Failure::Refused(FillRefusal::BrokenTransfer)) => 255,
        Err(Failure::OutOfMemory) => 255,
    }
}
