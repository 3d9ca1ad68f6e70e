// The second stage: a spine for each transfer.
ghost use Rattle.std.specs.Prelude.{◌≡◌, ℕ, ◌+◌, ◌<◌, ◌≤◌, true, length};
ghost use Rattle.ports.specs.Checks.{nodes_fit};
ghost use Rattle.lines.specs.Arrangers.{grown};
ghost use Rattle.timetables.specs.Stages.{InRounds, OnSpines};
ghost use Rattle.bookings.specs.Model.{transfers};
ghost use Rattle.book.specs.Parts.{LowNodes, Linked, Places, SameRounds, Spread, places_of, lines_at};

use crate::desk::Desk;
use crate::part::line_at;
use bookings::booking::Booking;
use lines::arranger::Arranger;

impl Desk {
    // Gathers the transfers of one round, as lines from send line to receive line.
    #[tactic(auto, using(crate::proofs::Linking::gathering))]
    fn gather(&mut self, live: &[Booking], n: u8, round: u8)
        requires few { length live.now ≤ 1024 }
        requires each { length self.old.seats.items ≡ length live.now }
        requires limit { round < 64 }
        requires linked { Linked self.old.seats.items self.old.links.firsts.items self.old.links.nexts.items }
        ensures seats { self.new.seats ≡ self.old.seats }
        ensures links { self.new.links ≡ self.old.links }
        ensures places { self.new.part.places.items ≡ places_of round self.old.seats.items }
        ensures lines { self.new.part.lines.items ≡ lines_at n (transfers live.now) (places_of round self.old.seats.items) }
    {
        self.part.clear();
        let mut next = self.links.first(round);
        while let Some(place) = next {
            self.part.add(place, line_at(live, place, n));
            next = self.links.next(place);
        }
    }

    // Gives each gathered transfer the spine that is the colour of its line.
    fn spread(&mut self)
        requires places { Places (length self.old.seats.items) self.old.part.places.items }
        requires lines { length self.old.part.lines.items ≡ length self.old.part.places.items }
        ensures links { self.new.links ≡ self.old.links }
        ensures seats { Spread self.old.part.places.items self.old.part.lines.items self.old.seats.items self.new.seats.items }
    {
        self.part.spread(self.seats.as_mut_slice());
    }

    // Gives spines to the transfers of one round.
    #[tactic(auto, using(crate::proofs::Seating::seating))]
    fn seat_round<B: Arranger>(&mut self, live: &[Booking], n: u8, round: u8, arranger: &mut B)
        requires nodes { nodes_fit n ≡ true }
        requires few { length live.now ≤ 1024 }
        requires low { LowNodes (transfers live.now) }
        requires limit { round < 64 }
        requires linked { Linked self.old.seats.items self.old.links.firsts.items self.old.links.nexts.items }
        requires rounds { InRounds 64 (transfers live.now) self.old.seats.items }
        requires spines { OnSpines n round (transfers live.now) self.old.seats.items }
        ensures linked { Linked self.new.seats.items self.new.links.firsts.items self.new.links.nexts.items }
        ensures rounds { SameRounds self.old.seats.items self.new.seats.items }
        ensures spines { OnSpines n (round + 1) (transfers live.now) self.new.seats.items }
        ensures meter { B.shows arranger.new ≡ grown (B.shows arranger.old) (length (places_of round self.old.seats.items)) }
    {
        self.gather(live, n, round);
        self.part.colour(arranger, n);
        self.spread();
    }

    // Gives a spine to each transfer that has a round: round by round, the arranger colours that round's transfers by line with
    // n colours. It is called for a round without transfers too.
    #[tactic(auto, using(crate::proofs::Seating::passing))]
    pub(crate) fn seat_spines<B: Arranger>(
        &mut self,
        live: &[Booking],
        n: u8,
        rounds: u8,
        arranger: &mut B,
    )
        requires nodes { nodes_fit n ≡ true }
        requires few { length live.now ≤ 1024 }
        requires low { LowNodes (transfers live.now) }
        requires limit { rounds ≤ 64 }
        requires rounds { InRounds rounds (transfers live.now) self.old.seats.items }
        ensures rounds { InRounds rounds (transfers live.now) self.new.seats.items }
        ensures spines { OnSpines n rounds (transfers live.now) self.new.seats.items }
        ensures meter { B.shows arranger.new ≡ grown (B.shows arranger.old) (length live.now) }
    {
        self.links.link(self.seats.as_slice());
        for round in 0..rounds {
            self.seat_round(live, n, round, arranger);
        }
    }
}
