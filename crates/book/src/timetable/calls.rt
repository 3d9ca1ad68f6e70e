// What is asked of a timetable.
ghost use Rattle.std.specs.Prelude.{◌≡◌, ◌<◌, [], Ok, IfOk, length};
ghost use Rattle.cabinet.specs.Wiring.{walk, bytes_of};
ghost use Rattle.cabinet.specs.Laws.{Placed};
ghost use Rattle.crossbar.specs.Refusals.{told_by};
ghost use Rattle.bookings.specs.Refusals.{ticket_refusal};
ghost use Rattle.bookings.specs.Tables.{model};
ghost use Rattle.book.specs.Calls.{seat_due, header_at, header_due, EndsAtReceiver, TicketEndsAtReceiver};
ghost use Rattle.book.specs.Books.{drafted, issued, seats};

use super::Timetable;
use crate::draft::Draft;
use bookings::refusal::TicketRefusal;
use bookings::table::Table;
use cabinet::kind::Cabinet;
use lines::arranger::Arranger;
use ports::sizes::Sizes;
use ports::transfer::Transfer;
use timetables::seat::Seat;

// A header of two nodes and a spine that is there, which no kind refuses.
#[tactic(auto, using(crate::proofs::Answering::not_refused))]
fn header_placed<K: Cabinet>(kind: &K, sizes: Sizes, transfer: Transfer, spine: u8) -> (u8, u8, u8)
    requires { Placed sizes.m sizes.n transfer.sender transfer.receiver spine }
    ensures answer { result ≡ (K.meaning sizes.m sizes.n).header transfer.sender transfer.receiver spine }
    ensures arrives { walk (K.meaning sizes.m sizes.n) transfer.sender (bytes_of result) ≡ Ok (transfer.receiver, []) }
{
    let Ok(header) = kind.header(sizes, transfer, spine) else {
        unreachable()
    };
    header
}

impl<K: Cabinet, A: Arranger, B: Arranger> Timetable<K, A, B> {
    // Takes the seats away: a draft again, with the same transfers under the same tickets.
    pub fn reopen(self) -> Draft<K, A, B>
        ensures book { drafted result ≡ issued self }
        ensures parts { (result.kind ≡ self.kind) × (result.round_arranger ≡ self.round_arranger) × (result.spine_arranger ≡ self.spine_arranger) }
    {
        let Timetable {
            table,
            mut desk,
            kind,
            round_arranger,
            spine_arranger,
        } = self;
        desk.clear();
        Draft {
            table,
            desk,
            kind,
            round_arranger,
            spine_arranger,
        }
    }

    // The round and the spine of a ticket's transfer.
    pub fn seat(&self, ticket: u16) -> Result<(u8, u8), TicketRefusal>
        ensures { told_by ticket_refusal result ≡ seat_due (issued self.now) (seats self.now) ticket }
    {
        let Some(place) = self.table.position(ticket) else {
            return Err(TicketRefusal::NotLive);
        };
        let seat = self.desk.seats[place];
        Ok((seat.round, seat.spine))
    }

    // The seats of the live transfers, in the order of these.
    pub fn seats(&self) -> &[Seat]
        ensures { result.now ≡ seats self.now }
    {
        self.desk.seats.as_slice()
    }

    // The header of the transfer at a place.
    fn header_at(&self, place: usize) -> (u8, u8, u8)
        requires { place < length (issued self.now).live }
        ensures answer { result ≡ header_at K.meaning (issued self.now) (seats self.now) place }
        ensures arrives { EndsAtReceiver K.meaning (issued self.now) place result }
    {
        let table = &self.table;
        let transfer = table.live()[place].transfer;
        let spine = self.desk.seats[place].spine;
        header_placed(&self.kind, table.sizes(), transfer, spine)
    }

    // The header that leads a ticket's transfer over the spine of its seat.
    pub fn header(&self, ticket: u16) -> Result<(u8, u8, u8), TicketRefusal>
        ensures answer { told_by ticket_refusal result ≡ header_due K.meaning (issued self.now) (seats self.now) ticket }
        ensures arrives { IfOk result (TicketEndsAtReceiver K.meaning (issued self.now) ticket) }
    {
        let Some(place) = self.table.position(ticket) else {
            return Err(TicketRefusal::NotLive);
        };
        Ok(self.header_at(place))
    }

    // The live transfers with their tickets, how many tickets have been given, the sizes and the number of rounds.
    pub fn table(&self) -> &Table
        ensures { model result.now ≡ issued self.now }
    {
        &self.table
    }

    // The cabinet kind.
    pub fn kind(&self) -> &K
        ensures { result.now ≡ self.now.kind }
    {
        &self.kind
    }

    // The round arranger.
    pub fn round_arranger(&self) -> &A
        ensures { result.now ≡ self.now.round_arranger }
    {
        &self.round_arranger
    }

    // The spine arranger.
    pub fn spine_arranger(&self) -> &B
        ensures { result.now ≡ self.now.spine_arranger }
    {
        &self.spine_arranger
    }
}
