// Which transfer of a round each node sends.
ghost use Rattle.std.specs.Prelude.{◌≡◌, ◌≤◌, length, replicate, None};
ghost use Rattle.bookings.specs.Model.{transfers};
ghost use Rattle.sheets.specs.Steps.{Noted, SendersBelow, SentApart};

use bookings::booking::Booking;
use timetables::seat::Seat;

// Notes at each node the place of the transfer of the round that it sends, and answers how many there are. No node sends two
// of one round.
#[tactic(auto, using(crate::proofs::Noting::noting))]
pub(crate) fn note_senders(
    live: &[Booking],
    seats: &[Seat],
    round: u8,
    places: &mut [Option<u16>],
) -> u16
    requires few { length live.now ≤ 1024 }
    requires each { length seats.now ≡ length live.now }
    requires apart { SentApart round (transfers live.now) seats.now }
    requires low { SendersBelow (transfers live.now) (length places.old) }
    requires none { places.old ≡ replicate (length places.old) None }
    ensures { Noted round (transfers live.now) seats.now (length live.now) places.new result }
{
    let mut count = 0;
    for place in 0..live.len() {
        if seats[place].round == round {
            let sender = live[place].transfer.sender;
            places[usize::from(sender)] = Some(place as u16);
            count += 1;
        }
    }
    count
}
