// A book that takes bookings.
ghost use Rattle.std.specs.Prelude.{◌≡◌, true, vec_len};
ghost use Rattle.bookings.specs.Tables.{model};

mod calls;

use crate::desk::Desk;
use bookings::table::Table;
use cabinet::kind::Cabinet;
use lines::arranger::Arranger;

// A book whose sizes can be set and whose transfers can be booked and cancelled. It has no seats: those are on the timetable
// that it is turned into. It is for one cabinet kind; the round arranger will give rounds, the spine arranger spines. An
// arranger is what colours lines such that those with a common end differ.
#[derive(Drop)]
pub struct Draft<K: Cabinet, A: Arranger, B: Arranger> {
    pub(crate) table: Table,
    pub(crate) desk: Desk,
    pub(crate) kind: K,
    pub(crate) round_arranger: A,
    pub(crate) spine_arranger: B,
    // the round arranger serves the number of rounds
    pub(crate) ghost served: { A.served (model table).rounds ≡ true },
    pub(crate) ghost no_seats: { vec_len desk.seats ≡ 0 },
}
