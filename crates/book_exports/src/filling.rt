// A book that is filled from bytes.
ghost use Rattle.timetables.specs.Timetables.{ClashFree};
ghost use Rattle.kinds.specs.Folded.{folded};
ghost use Rattle.bookings.specs.Model.{new_book};
ghost use Rattle.book.specs.Books.{drafted};
ghost use Rattle.book_exports.specs.Filling.{filling_due, Fills, Told, fill_code};

use crate::refusal::{FillError, FillRefusal};
use crate::seats::{are_whole, decode, put_seats};
use crate::turns::last_timetable;
use book::draft::Draft;
use cabinet::kind::Cabinet;
use failure::Failure;
use kinds::folded::Folded;
use lines::arranger::Arranger;
use ports::sizes::Sizes;
use std::alloc::{AllocError, Global};

// Sets the sizes and the number of rounds, and has so many turns of booking the transfers of the bytes, seating them and
// cancelling them again; puts the seats of the last turn into the bytes.
pub fn fill<K: Cabinet + Drop, A: Arranger + Drop, B: Arranger + Drop>(
    draft: Draft<K, A, B>,
    heap: Global,
    bytes: &mut [u8],
    sizes: Sizes,
    rounds: u8,
    times: u8,
) -> Result<(), FillError>
    ensures { Fills result (filling_due (drafted draft) (A.served rounds) sizes.m sizes.n rounds times) (ClashFree (K.meaning sizes.m sizes.n) sizes.n rounds) times bytes.old bytes.new }
{
    if !are_whole(bytes) {
        return Err(Failure::Refused(FillRefusal::BrokenTransfer));
    }
    let transfers = decode(heap, bytes)?;
    let Some(timetable) = last_timetable(draft, sizes, rounds, transfers.as_slice(), times)? else {
        return Ok(());
    };
    put_seats(bytes, timetable.seats());
    Ok(())
}

// The same with a new book of the folded kind and two arrangers that were only just made, if there was memory for them.
#[tactic(auto, using(crate::proofs::Fillings::told))]
pub(crate) fn fill_new<A: Arranger + Drop, B: Arranger + Drop>(
    heap: Global,
    round_arranger: Result<A, AllocError>,
    spine_arranger: Result<B, AllocError>,
    bytes: &mut [u8],
    sizes: Sizes,
    rounds: u8,
    times: u8,
) -> Result<(), FillError>
    ensures { Told (filling_due new_book (A.served rounds) sizes.m sizes.n rounds times) (ClashFree (folded sizes.m sizes.n) sizes.n rounds) times bytes.old bytes.new (fill_code result) }
{
    let draft = Draft::new(heap, Folded, round_arranger?, spine_arranger?)?;
    fill(draft, heap, bytes, sizes, rounds, times)
}
