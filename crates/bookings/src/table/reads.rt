// What is read of a table.
ghost use Rattle.std.specs.Prelude.{◌≡◌};
ghost use Rattle.bookings.specs.Tables.{model};

use super::Table;
use crate::booking::Booking;
use ports::sizes::Sizes;

impl Table {
    // The sizes of the cabinet.
    pub fn sizes(&self) -> Sizes
        ensures m { result.m ≡ (model self.now).m }
        ensures n { result.n ≡ (model self.now).n }
    {
        self.sizes
    }

    // The number of rounds.
    pub fn rounds(&self) -> u8
        ensures { result ≡ (model self.now).rounds }
    {
        self.rounds
    }

    // How many tickets have been given.
    pub fn given(&self) -> u16
        ensures { result ≡ (model self.now).given }
    {
        self.given
    }

    // The live transfers, in the order in which they were booked.
    pub fn live(&self) -> &[Booking]
        ensures { result.now ≡ (model self.now).live }
    {
        self.live.as_slice()
    }
}
