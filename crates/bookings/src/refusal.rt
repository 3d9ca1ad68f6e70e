// Why a fit, a booking, a load or a call with a ticket is refused. Each case holds the values that are told with its number;
// specs/Refusals.antt has the numbers, specs/Faults.antt those of a load.
ghost use Rattle.std.specs.Prelude.{◌≡◌};
ghost use Rattle.bookings.specs.declared.refusal.LoadRefusal.TheVariants.{Image};
ghost use Rattle.bookings.specs.Faults.{load_fault};
ghost use Rattle.bookings.specs.Refusals.{fit_refusal, booking_refusal, ticket_refusal};

use image::refusal::{ImageRefusal, Layer};

// Why sizes and a number of rounds are not set.
#[derive(Clone, Copy, PartialEq, Eq, Debug)]
pub enum FitRefusal {
    // m is not 1 to 32
    LineCount,
    // n is not 1, 2, 4, 8 or 16
    NodeCount,
    // R is not 1 to 64
    RoundCount,
    // the round arranger does not serve R
    RoundsNotServed,
    // a transfer is live
    TransferLive,
}

impl FitRefusal {
    // The number that docs/REFUSALS.md gives the refusal.
    pub fn number(self) -> u8
        ensures { result ≡ (fit_refusal self).number }
    {
        match self {
            FitRefusal::LineCount => 1,
            FitRefusal::NodeCount => 2,
            FitRefusal::RoundCount => 3,
            FitRefusal::RoundsNotServed => 4,
            FitRefusal::TransferLive => 5,
        }
    }
}

// Why a transfer is not booked.
#[derive(Clone, Copy, PartialEq, Eq, Debug)]
pub enum BookRefusal {
    // the sender is not a node
    Sender(u16),
    // the receiver is not a node
    Receiver(u16),
    // the sender already sends as many live transfers as there are rounds
    SenderFull(u16),
    // the receiver already receives as many
    ReceiverFull(u16),
    // 1,024 transfers are live
    BookFull,
    // ticket 65,535 has been given
    TicketsSpent,
}

impl BookRefusal {
    // The number that docs/REFUSALS.md gives the refusal.
    pub fn number(self) -> u8
        ensures { result ≡ (booking_refusal self).number }
    {
        match self {
            BookRefusal::Sender(_) => 6,
            BookRefusal::Receiver(_) => 7,
            BookRefusal::SenderFull(_) => 8,
            BookRefusal::ReceiverFull(_) => 9,
            BookRefusal::BookFull => 10,
            BookRefusal::TicketsSpent => 11,
        }
    }

    // The node that the refusal is about, where it is about one.
    pub fn node(self) -> Option<u16>
        ensures { result ≡ (booking_refusal self).node }
    {
        match self {
            BookRefusal::Sender(node)
            | BookRefusal::Receiver(node)
            | BookRefusal::SenderFull(node)
            | BookRefusal::ReceiverFull(node) => Some(node),
            BookRefusal::BookFull | BookRefusal::TicketsSpent => None,
        }
    }
}

// Why the transfers of an image are not booked; a case about one cell holds the number of the cell.
#[derive(Clone, Copy, PartialEq, Eq, Debug)]
pub enum LoadRefusal {
    // the image is refused
    Image(ImageRefusal),
    // m, n or R of the head are not those of the book
    Sizes,
    // the transfer of this cell is not booked
    Booking(u16, BookRefusal),
}

impl LoadRefusal {
    // The number that docs/REFUSALS.md gives the refusal.
    pub fn number(self) -> u8
        ensures { result ≡ (load_fault self).refusal.number }
    {
        match self {
            LoadRefusal::Image(refusal) => refusal.number(),
            LoadRefusal::Sizes => 17,
            LoadRefusal::Booking(_, refusal) => refusal.number(),
        }
    }

    // The node that the refusal is about, where it is about one.
    pub fn node(self) -> Option<u16>
        ensures { result ≡ (load_fault self).refusal.node }
    {
        match self {
            LoadRefusal::Image(_) | LoadRefusal::Sizes => None,
            LoadRefusal::Booking(_, refusal) => refusal.node(),
        }
    }

    // The cell that the refusal is about; 0 is the head.
    pub fn cell(self) -> u16
        ensures { result ≡ (load_fault self).cell }
    {
        match self {
            LoadRefusal::Image(refusal) => refusal.cell(),
            LoadRefusal::Sizes => 0,
            LoadRefusal::Booking(cell, _) => cell,
        }
    }

    // The layer that refuses.
    pub fn layer(self) -> Layer
        ensures { result ≡ (load_fault self).layer }
    {
        match self {
            LoadRefusal::Image(refusal) => refusal.layer(),
            LoadRefusal::Sizes => Layer::Image,
            LoadRefusal::Booking(..) => Layer::Booking,
        }
    }
}

// Written by hand, since a derived one would not tell which case it gives.
impl From<ImageRefusal> for LoadRefusal {
    ghost from_gives = { λ e r. r ≡ Image e };

    fn from(e: ImageRefusal) -> LoadRefusal {
        LoadRefusal::Image(e)
    }
}

// Why a call with a ticket is refused.
#[derive(Clone, Copy, PartialEq, Eq, Debug)]
pub enum TicketRefusal {
    // no live transfer has the ticket
    NotLive,
}

impl TicketRefusal {
    // The number that docs/REFUSALS.md gives the refusal.
    pub fn number(self) -> u8
        ensures { result ≡ (ticket_refusal self).number }
    {
        match self {
            TicketRefusal::NotLive => 12,
        }
    }
}
