// The table of live transfers.
ghost use Rattle.std.specs.Prelude.{◌≡◌, ◌≤◌, true, vec_len, vec_capacity};
ghost use Rattle.ports.specs.Checks.{lines_fit, nodes_fit};
ghost use Rattle.timetables.specs.Loads.{LoadsWithin, BetweenNodes};
ghost use Rattle.bookings.specs.Model.{transfers, Rising};
ghost use Rattle.bookings.specs.Counts.{Counted};

mod calls;
mod loading;
mod reads;

use crate::booking::Booking;
use crate::loads::Loads;
use ports::sizes::Sizes;

// The sizes, the number of rounds, how many tickets have been given, and the live transfers in the order in which they were
// booked. It keeps for each node how many of them it sends and receives, so that a booking need not count.
#[derive(Drop)]
pub struct Table {
    sizes: Sizes,
    rounds: u8,
    given: u16,
    live: Vec<Booking>,
    loads: Loads,
    ghost lines: { lines_fit sizes.m ≡ true },
    ghost nodes: { nodes_fit sizes.n ≡ true },
    ghost some: { 1 ≤ rounds },
    ghost limit: { rounds ≤ 64 },
    ghost few: { vec_len live ≤ 1024 },
    ghost room: { 1024 ≤ vec_capacity live },
    ghost rising: { Rising given live.items },
    ghost between: { BetweenNodes sizes.m sizes.n (transfers live.items) },
    ghost within: { LoadsWithin rounds (transfers live.items) },
    ghost counted: { Counted loads.sent.items loads.received.items (transfers live.items) },
}
