// Whether two timetables are alike.
ghost use Rattle.std.specs.Prelude.{◌≡◌, ◌↔◌, true, length};
ghost use Rattle.bookings.specs.Tables.{model};
ghost use Rattle.book.specs.Books.{issued, seats};
ghost use Rattle.reports.specs.Likeness.{Alike, SameStanding, SamePlaces, SameUnderTickets};

use book::timetable::Timetable;
use bookings::booking::Booking;
use bookings::table::Table;
use cabinet::kind::Cabinet;
use lines::arranger::Arranger;
use timetables::seat::Seat;

// Whether two live transfers are the same, under the same ticket and in the same round. The spines may differ.
fn is_same_standing(one: Booking, one_seat: Seat, other: Booking, other_seat: Seat) -> bool
    ensures { (result ≡ true) ↔ SameStanding one one_seat other other_seat }
{
    one.ticket == other.ticket
        && one.transfer == other.transfer
        && one_seat.round == other_seat.round
}

// Whether the same stands at each place.
#[tactic(auto, unfolding(crate::specs::Likeness::SamePlaces))]
fn are_same_by_place(
    ones: &[Booking],
    one_seats: &[Seat],
    others: &[Booking],
    other_seats: &[Seat],
) -> bool
    requires as_many { length others.now ≡ length ones.now }
    requires one_seats { length one_seats.now ≡ length ones.now }
    requires other_seats { length other_seats.now ≡ length others.now }
    ensures { (result ≡ true) ↔ SamePlaces ones.now one_seats.now others.now other_seats.now }
{
    for place in 0..ones.len() {
        if !is_same_standing(
            ones[place],
            one_seats[place],
            others[place],
            other_seats[place],
        ) {
            return false;
        }
    }
    true
}

// Whether two tables, each with its seats, have the same under each ticket. Tickets rise in both, so that this is so just
// where as many are live in both and the same stands at each place.
#[tactic(auto, using(crate::proofs::Comparing::by_place))]
fn are_same_by_ticket(one: &Table, one_seats: &[Seat], other: &Table, other_seats: &[Seat]) -> bool
    requires one_seats { length one_seats.now ≡ length (model one.now).live }
    requires other_seats { length other_seats.now ≡ length (model other.now).live }
    ensures { (result ≡ true) ↔ SameUnderTickets (model one.now) one_seats.now (model other.now) other_seats.now }
{
    let (ones, others) = (one.live(), other.live());
    if ones.len() != others.len() {
        return false;
    }
    are_same_by_place(ones, one_seats, others, other_seats)
}

// Whether two timetables are alike: they agree in their sizes and in the number of rounds, and each ticket that is live in
// one is live in the other, for the same transfer in the same round.
#[tactic(auto, unfolding(crate::specs::Likeness::SameUnderTickets))]
pub fn alike<K: Cabinet, A: Arranger, B: Arranger, L: Cabinet, C: Arranger, D: Arranger>(
    one: &Timetable<K, A, B>,
    other: &Timetable<L, C, D>,
) -> bool
    ensures { (result ≡ true) ↔ Alike (issued one.now) (seats one.now) (issued other.now) (seats other.now) }
{
    let (table, other_table) = (one.table(), other.table());
    if table.sizes() != other_table.sizes() || table.rounds() != other_table.rounds() {
        return false;
    }
    are_same_by_ticket(table, one.seats(), other_table, other.seats())
}
