// Which transfers are of which round.
ghost use Rattle.std.specs.Prelude.{◌≡◌, ℕ, ◌<◌, ◌≤◌, length, vec_len, slice_index_or, None};
ghost use Rattle.timetables.specs.Timetables.{seat_at};
ghost use Rattle.book.specs.Parts.{Linked};

use std::alloc::{AllocError, Global};
use timetables::seat::Seat;

// The places of each round as a list: the first place of each round, and after each place the next one of the same round.
#[derive(Drop)]
pub(crate) struct Links {
    pub(crate) firsts: Vec<Option<u16>>,
    pub(crate) nexts: Vec<Option<u16>>,
    pub(crate) ghost first_room: { vec_len firsts ≡ 64 },
    pub(crate) ghost next_room: { vec_len nexts ≡ 1024 },
}

impl Links {
    // Room for the places of 64 rounds.
    pub(crate) fn new(heap: Global) -> Result<Links, AllocError> {
        let firsts = vec![in heap; None; 64]?;
        let nexts = vec![in heap; None; 1024]?;
        Ok(Links { firsts, nexts })
    }

    // Links the places of each round, from the last place on, so that places rise along each list.
    pub(crate) fn link(&mut self, seats: &[Seat])
        requires few { length seats.now ≤ 1024 }
        requires low { (i : ℕ) → i < length seats.now → (seat_at seats.now i).round < 64 }
        ensures { Linked seats.now self.new.firsts.items self.new.nexts.items }
    {
        self.firsts.fill(None);
        for place in (0..seats.len()).rev() {
            let round = usize::from(seats[place].round);
            self.nexts[place] = self.firsts[round];
            self.firsts[round] = Some(place as u16);
        }
    }

    // The first place of a round; none where the round has no place.
    pub(crate) fn first(&self, round: u8) -> Option<u16>
        requires { round < 64 }
        ensures { result ≡ slice_index_or self.now.firsts.items round None }
    {
        self.firsts[usize::from(round)]
    }

    // The place after a place in its round; none after the last.
    pub(crate) fn next(&self, place: u16) -> Option<u16>
        requires { place < 1024 }
        ensures { result ≡ slice_index_or self.now.nexts.items place None }
    {
        self.nexts[usize::from(place)]
    }
}
