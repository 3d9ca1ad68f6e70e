// The memory in which a timetable is made.
ghost use Rattle.std.specs.Prelude.{◌≡◌, ◌≤◌, true, length, vec_len, vec_capacity, IfOk};
ghost use Rattle.lines.specs.Arrangers.{grown};
ghost use Rattle.timetables.specs.Stages.{InRounds, OnSpines};
ghost use Rattle.bookings.specs.Model.{transfers};
ghost use Rattle.bookings.specs.Tables.{model};

use crate::links::Links;
use crate::part::Part;
use bookings::table::Table;
use lines::arranger::Arranger;
use std::alloc::{AllocError, Global};
use timetables::seat::Seat;

// Room for the seats of all the transfers that can be live, and what is wanted while they are given. It is got once, so that
// no timetable fails for want of memory.
#[derive(Drop)]
pub(crate) struct Desk {
    // the seat of each live transfer of a timetable, in order; none in a draft
    pub(crate) seats: Vec<Seat>,
    pub(crate) links: Links,
    pub(crate) part: Part,
    pub(crate) ghost room: { 1024 ≤ vec_capacity seats },
}

impl Desk {
    // An empty desk.
    pub(crate) fn new(heap: Global) -> Result<Desk, AllocError>
        ensures { IfOk result (λ d. vec_len d.seats ≡ 0) }
    {
        let seats = Vec::with_capacity(heap, 1024)?;
        let links = Links::new(heap)?;
        let part = Part::new(heap)?;
        Ok(Desk { seats, links, part })
    }

    // Takes all seats away.
    pub(crate) fn clear(&mut self)
        ensures { vec_len self.new.seats ≡ 0 }
    {
        self.seats.clear();
    }

    // Gives each live transfer a seat: first the rounds of all, then their spines.
    pub(crate) fn seat<A: Arranger, B: Arranger>(
        &mut self,
        table: &Table,
        round_arranger: &mut A,
        spine_arranger: &mut B,
    )
        requires served { A.served (model table.now).rounds ≡ true }
        ensures rounds { let b = model table.now in InRounds b.rounds (transfers b.live) self.new.seats.items }
        ensures spines { let b = model table.now in OnSpines b.n b.rounds (transfers b.live) self.new.seats.items }
        ensures round_meter { A.shows round_arranger.new ≡ grown (A.shows round_arranger.old) (length (model table.now).live) }
        ensures spine_meter { B.shows spine_arranger.new ≡ grown (B.shows spine_arranger.old) (length (model table.now).live) }
    {
        let rounds = table.rounds();
        self.seat_rounds(table.live(), rounds, round_arranger);
        self.seat_spines(table.live(), table.sizes().n, rounds, spine_arranger);
    }
}
