// The first stage: a round for each transfer.
ghost use Rattle.std.specs.Prelude.{◌≡◌, ◌≤◌, true, length, map, vec_capacity};
ghost use Rattle.lines.specs.Arrangers.{grown};
ghost use Rattle.timetables.specs.Loads.{LoadsWithin};
ghost use Rattle.timetables.specs.Stages.{InRounds};
ghost use Rattle.bookings.specs.Model.{transfers};
ghost use Rattle.book.specs.Parts.{LowNodes, round_seat};

use crate::desk::Desk;
use crate::part::Part;
use bookings::booking::Booking;
use lines::arranger::Arranger;
use timetables::seat::Seat;

// The round of each transfer is the colour of its line; it has no spine yet.
fn take_rounds(part: &Part, seats: &mut Vec<Seat>)
    requires room { length part.now.lines.items ≤ vec_capacity seats.old }
    ensures seats { seats.new.items ≡ map round_seat part.now.lines.items }
    ensures room { vec_capacity seats.new ≡ vec_capacity seats.old }
{
    seats.clear();
    for line in &part.lines {
        seats.push_reserved(Seat {
            round: line.colour,
            spine: 0,
        });
    }
}

impl Desk {
    // Gives a round to each transfer: the arranger colours all of them by node, with as many colours as there are rounds.
    #[tactic(auto, using(crate::proofs::ByNode::by_nodes))]
    pub(crate) fn seat_rounds<A: Arranger>(
        &mut self,
        live: &[Booking],
        rounds: u8,
        arranger: &mut A,
    )
        requires served { A.served rounds ≡ true }
        requires few { length live.now ≤ 1024 }
        requires low { LowNodes (transfers live.now) }
        requires within { LoadsWithin rounds (transfers live.now) }
        ensures rounds { InRounds rounds (transfers live.now) self.new.seats.items }
        ensures meter { A.shows arranger.new ≡ grown (A.shows arranger.old) (length live.now) }
    {
        self.part.gather_all(live);
        self.part.colour(arranger, rounds);
        take_rounds(&self.part, &mut self.seats);
    }
}
