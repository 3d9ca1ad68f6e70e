// Functions for a static library: they fill a book with transfers that stand in bytes, six to a transfer.
//
//   seats     transfers from bytes, and seats into them
//   refusal   why transfers of bytes get no seats, and what C is told
//   turns     transfers booked, seated and cancelled again, some times over
//   filling   a book filled from bytes
#![tactic(auto)]

ghost use Rattle.timetables.specs.Timetables.{ClashFree};
ghost use Rattle.kinds.specs.Folded.{folded};
ghost use Rattle.chain.specs.Served.{chain_serves};
ghost use Rattle.euler.specs.Halves.{one_bit_to_64};
ghost use Rattle.bookings.specs.Model.{new_book};
ghost use Rattle.book_exports.specs.Filling.{filling_due, Told};

use crate::filling::fill_new;
use crate::refusal::fill_code;
use chain::Chain;
use euler::arranger::Euler;
use ports::sizes::Sizes;
use std::alloc::Global;

pub mod filling;
pub mod refusal;
mod seats;
mod turns;

// Fills a new book of the folded kind with the transfers of the bytes, `times` times over: a chain arranger gives rounds, an
// Euler arranger spines. C is told a number.
#[unsafe(no_mangle)]
pub extern "C" fn chain_euler_book(
    heap: Global,
    bytes: &mut [u8],
    m: u8,
    n: u8,
    rounds: u8,
    times: u8,
) -> u8
    ensures { Told (filling_due new_book (chain_serves rounds) m n rounds times) (ClashFree (folded m n) n rounds) times bytes.old bytes.new result }
{
    let (chain, euler) = (Chain::new(heap), Euler::new(heap));
    let sizes = Sizes { m, n };
    fill_code(fill_new(heap, chain, euler, bytes, sizes, rounds, times))
}

// The same where an Euler arranger gives rounds, and a chain arranger spines.
#[unsafe(no_mangle)]
pub extern "C" fn euler_chain_book(
    heap: Global,
    bytes: &mut [u8],
    m: u8,
    n: u8,
    rounds: u8,
    times: u8,
) -> u8
    ensures { Told (filling_due new_book (one_bit_to_64 rounds) m n rounds times) (ClashFree (folded m n) n rounds) times bytes.old bytes.new result }
{
    let (chain, euler) = (Chain::new(heap), Euler::new(heap));
    let sizes = Sizes { m, n };
    fill_code(fill_new(heap, euler, chain, bytes, sizes, rounds, times))
}
