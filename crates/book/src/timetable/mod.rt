// A book whose transfers have seats.
ghost use Rattle.std.specs.Prelude.{◌≡◌, true};
ghost use Rattle.bookings.specs.Tables.{model};
ghost use Rattle.book.specs.Calls.{Seated};

mod calls;

use crate::desk::Desk;
use bookings::table::Table;
use cabinet::kind::Cabinet;
use lines::arranger::Arranger;

// A book in which each live transfer has a seat, its round and its spine, such that no two transfers of one round meet on a
// wire. Nothing can be booked in it: it is turned back into a draft first.
#[derive(Drop)]
pub struct Timetable<K: Cabinet, A: Arranger, B: Arranger> {
    pub(crate) table: Table,
    // where the seats lie, in the order of the live transfers
    pub(crate) desk: Desk,
    pub(crate) kind: K,
    pub(crate) round_arranger: A,
    pub(crate) spine_arranger: B,
    // the round arranger serves the number of rounds
    pub(crate) ghost served: { A.served (model table).rounds ≡ true },
    pub(crate) ghost clash_free: { Seated K.meaning (model table) desk.seats.items },
}
