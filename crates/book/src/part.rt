// Live transfers as lines for an arranger.
ghost use Rattle.std.specs.Prelude.{◌≡◌, ◌<◌, ◌≤◌, [], ◌∷◌, ◌++◌, true, map, length, vec_capacity};
ghost use Rattle.timetables.specs.Stages.{by_node};
ghost use Rattle.lines.specs.Arrangers.{Arranged, grown};
ghost use Rattle.bookings.specs.Model.{transfers};
ghost use Rattle.book.specs.Parts.{Places, Arrangeable, Spread, line_at, on_spine};

use crate::arrange::arrange_accepted;
use bookings::booking::Booking;
use lines::arranger::Arranger;
use lines::line::Line;
use std::alloc::{AllocError, Global};
use timetables::ends::{by_line, by_node};
use timetables::seat::Seat;

// Live transfers as lines: all of them in the first stage; those of one round in the second, with their places.
#[derive(Drop)]
pub(crate) struct Part {
    pub(crate) places: Vec<u16>,
    pub(crate) lines: Vec<Line>,
    pub(crate) ghost place_room: { 1024 ≤ vec_capacity places },
    pub(crate) ghost line_room: { 1024 ≤ vec_capacity lines },
}

impl Part {
    // Room for all the transfers that can be live.
    pub(crate) fn new(heap: Global) -> Result<Part, AllocError> {
        let places = Vec::with_capacity(heap, 1024)?;
        let lines = Vec::with_capacity(heap, 1024)?;
        Ok(Part { places, lines })
    }

    // Empties the part.
    pub(crate) fn clear(&mut self)
        ensures places { self.new.places.items ≡ [] }
        ensures lines { self.new.lines.items ≡ [] }
    {
        self.places.clear();
        self.lines.clear();
    }

    // Adds the transfer at a place, with its line.
    pub(crate) fn add(&mut self, place: u16, line: Line)
        requires place_room { length self.old.places.items < 1024 }
        requires line_room { length self.old.lines.items < 1024 }
        ensures places { self.new.places.items ≡ self.old.places.items ++ (place ∷ []) }
        ensures lines { self.new.lines.items ≡ self.old.lines.items ++ (line ∷ []) }
    {
        self.places.push_reserved(place);
        self.lines.push_reserved(line);
    }

    // Has the lines coloured with so many colours.
    #[tactic(auto, unfolding(crate::specs::Parts::Arrangeable))]
    pub(crate) fn colour<A: Arranger>(&mut self, arranger: &mut A, c: u8)
        requires served { A.served c ≡ true }
        requires fit { Arrangeable c self.old.lines.items }
        ensures places { self.new.places ≡ self.old.places }
        ensures lines { Arranged c self.old.lines.items self.new.lines.items }
        ensures meter { A.shows arranger.new ≡ grown (A.shows arranger.old) (length self.old.lines.items) }
    {
        arrange_accepted(arranger, self.lines.as_mut_slice(), c);
    }

    // Gathers all the live transfers, as lines from sender to receiver.
    pub(crate) fn gather_all(&mut self, live: &[Booking])
        requires few { length live.now ≤ 1024 }
        ensures { self.new.lines.items ≡ map by_node (transfers live.now) }
    {
        self.lines.clear();
        for booking in live {
            self.lines.push_reserved(by_node(booking.transfer));
        }
    }

    // Gives each transfer of the part the spine that is the colour of its line.
    #[tactic(auto, using(crate::proofs::Spreading::spreading))]
    pub(crate) fn spread(&self, seats: &mut [Seat])
        requires places { Places (length seats.old) self.now.places.items }
        requires lines { length self.now.lines.items ≡ length self.now.places.items }
        ensures { Spread self.now.places.items self.now.lines.items seats.old seats.new }
    {
        for (place, line) in self.places.iter().zip(&self.lines) {
            put_on(seats, *place, line.colour);
        }
    }
}

// The transfer at a place, as a line from its send line to its receive line.
#[tactic(auto, using(crate::proofs::Linking::transfer_of), unfolding(crate::specs::Parts::line_at))]
pub(crate) fn line_at(live: &[Booking], place: u16, n: u8) -> Line
    requires { place < length live.now }
    ensures { result ≡ line_at n (transfers live.now) place }
{
    by_line(live[usize::from(place)].transfer, n)
}

// Puts the seat at a place on a spine.
#[tactic(auto, unfolding(crate::specs::Parts::on_spine))]
fn put_on(seats: &mut [Seat], place: u16, spine: u8)
    requires { place < length seats.old }
    ensures { seats.new ≡ on_spine seats.old place spine }
{
    seats[usize::from(place)].spine = spine;
}
