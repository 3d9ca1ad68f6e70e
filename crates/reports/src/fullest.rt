// The fullest round of a timetable.
ghost use Rattle.std.specs.Prelude.{◌≡◌, ℕ, ◌<◌, ◌≤◌, [], length, Some};
ghost use Rattle.timetables.specs.Timetables.{seat_at};
ghost use Rattle.book.specs.Books.{issued, seats};
ghost use Rattle.reports.specs.Fullest.{fullest_due, Fullest};
ghost use Rattle.reports.specs.Steps.{Counts, round_key, round_loads};

use crate::choice::best;
use crate::loads::RoundLoad;
use book::timetable::Timetable;
use cabinet::kind::Cabinet;
use lines::arranger::Arranger;
use timetables::seat::Seat;

// Counts the rounds that the seats have.
#[tactic(auto, using(crate::proofs::Counting::counting))]
fn count_rounds(seats: &[Seat], counts: &mut [u16])
    requires few { length seats.now ≤ 1024 }
    requires low { (i : ℕ) → i < length seats.now → round_key (seat_at seats.now i) < length counts.old }
    requires none { Counts round_key [] counts.old }
    ensures { Counts round_key seats.now counts.new }
{
    for seat in seats {
        counts[usize::from(seat.round)] += 1;
    }
}

// The load of each round, by the counts.
#[tactic(auto, using(crate::proofs::Counting::round_filling))]
fn fill(loads: &mut [RoundLoad], counts: &[u16])
    requires loads { length loads.old ≡ 64 }
    requires counts { length counts.now ≡ 64 }
    ensures { loads.new ≡ round_loads counts.now }
{
    for round in 0..64u8 {
        let count = counts[usize::from(round)];
        loads[usize::from(round)] = RoundLoad { round, count };
    }
}

// Of so many rounds the one with the most seats, and how many; of rounds with equally many, the lowest.
#[tactic(auto, using(crate::proofs::Filling::filling))]
fn fullest_of(seats: &[Seat], rounds: u8) -> RoundLoad
    requires some { 1 ≤ rounds }
    requires limit { rounds ≤ 64 }
    requires few { length seats.now ≤ 1024 }
    requires low { (i : ℕ) → i < length seats.now → round_key (seat_at seats.now i) < 64 }
    ensures answer { Some result ≡ fullest_due rounds seats.now }
    ensures fullest { Fullest rounds seats.now result }
{
    let mut counts = [0u16; 64];
    count_rounds(seats, &mut counts);
    let mut loads = [RoundLoad { round: 0, count: 0 }; 64];
    fill(&mut loads, &counts);
    let Some(load) = best(&loads[..usize::from(rounds)]) else {
        unreachable()
    };
    *load
}

// The round with the most transfers, and how many it has; of rounds with equally many, the lowest.
pub fn fullest<K: Cabinet, A: Arranger, B: Arranger>(timetable: &Timetable<K, A, B>) -> RoundLoad
    ensures answer { Some result ≡ fullest_due (issued timetable.now).rounds (seats timetable.now) }
    ensures fullest { Fullest (issued timetable.now).rounds (seats timetable.now) result }
{
    fullest_of(timetable.seats(), timetable.table().rounds())
}
