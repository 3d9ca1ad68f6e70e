// Bookings.
use ports::transfer::Transfer;

// A transfer that has been booked, under its ticket. A ticket is the number by which whoever booked a transfer speaks of it
// later; no ticket is given twice.
#[derive(Clone, Copy, PartialEq, Eq, Debug)]
pub struct Booking {
    pub ticket: u16,
    pub transfer: Transfer,
}
