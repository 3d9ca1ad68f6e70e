// What is asked of a draft.
ghost use Rattle.std.specs.Prelude.{◌≡◌, IfOk, length};
ghost use Rattle.lines.specs.Arrangers.{grown};
ghost use Rattle.timetables.specs.Loads.{largest_load};
ghost use Rattle.crossbar.specs.Refusals.{told_by};
ghost use Rattle.bookings.specs.Refusals.{fit_refusal, booking_refusal, ticket_refusal};
ghost use Rattle.bookings.specs.Model.{new_book, transfers, fit_due, fitted, booking_due, booked, cancel_due, cancelled};
ghost use Rattle.bookings.specs.Tables.{model};
ghost use Rattle.image.specs.Meaning.{with_texts};
ghost use Rattle.bookings.specs.Faults.{told_load};
ghost use Rattle.bookings.specs.Loading.{load_due, loaded, Adds};
ghost use Rattle.book.specs.Calls.{Seated, Delivered, LeastExactly, FullExactly, LoadFullExactly};
ghost use Rattle.book.specs.Books.{drafted, issued, seats, Untouched};

use super::Draft;
use crate::desk::Desk;
use crate::timetable::Timetable;
use bookings::refusal::{BookRefusal, FitRefusal, LoadRefusal, TicketRefusal};
use bookings::table::Table;
use cabinet::kind::Cabinet;
use image::labels::Texts;
use lines::arranger::Arranger;
use ports::sizes::Sizes;
use ports::transfer::Transfer;
use std::alloc::{AllocError, Global};

impl<K: Cabinet + Drop, A: Arranger + Drop, B: Arranger + Drop> Draft<K, A, B> {
    // A new book: one line, one node, one round and no transfer. All memory that it will ever want is got here, but for what
    // the arrangers have got for themselves. What it is handed is dropped where memory is short.
    pub fn new(
        heap: Global,
        kind: K,
        round_arranger: A,
        spine_arranger: B,
    ) -> Result<Draft<K, A, B>, AllocError>
        ensures book { IfOk result (λ d. drafted d ≡ new_book) }
        ensures parts { IfOk result (λ d. (d.kind ≡ kind) × (d.round_arranger ≡ round_arranger) × (d.spine_arranger ≡ spine_arranger)) }
    {
        let table = Table::new(heap)?;
        let desk = Desk::new(heap)?;
        Ok(Draft {
            table,
            desk,
            kind,
            round_arranger,
            spine_arranger,
        })
    }
}

impl<K: Cabinet, A: Arranger, B: Arranger> Draft<K, A, B> {
    // Sets the sizes and the number of rounds.
    pub fn fit(&mut self, sizes: Sizes, rounds: u8) -> Result<(), FitRefusal>
        ensures answer { told_by fit_refusal result ≡ fit_due (drafted self.old) (A.served rounds) sizes.m sizes.n rounds }
        ensures book { drafted self.new ≡ fitted (drafted self.old) (A.served rounds) sizes.m sizes.n rounds }
        ensures others { Untouched self.old self.new }
    {
        let served = self.round_arranger.serves(rounds);
        self.table.fit(sizes, rounds, served)
    }

    // Books a transfer and answers its ticket.
    pub fn book(&mut self, transfer: Transfer) -> Result<u16, BookRefusal>
        ensures answer { told_by booking_refusal result ≡ booking_due (drafted self.old) transfer }
        ensures book { drafted self.new ≡ booked (drafted self.old) transfer }
        ensures others { Untouched self.old self.new }
        ensures full { FullExactly K.meaning (drafted self.old) transfer (told_by booking_refusal result) }
    {
        self.table.book(transfer)
    }

    // Books the transfers of a job image in the order of its chain, all or none, and answers the first ticket and how many
    // there are; where there are none, the next ticket, which can be 65,536.
    pub fn load(&mut self, image: &[u8], texts: Texts<'_>) -> Result<(u32, u16), LoadRefusal>
        ensures answer { told_load result ≡ load_due (drafted self.old) (with_texts image.now texts.entry) }
        ensures book { drafted self.new ≡ loaded (drafted self.old) (with_texts image.now texts.entry) }
        ensures others { Untouched self.old self.new }
        ensures adds { Adds (drafted self.old) (with_texts image.now texts.entry) (told_load result) (drafted self.new) }
        ensures full { LoadFullExactly K.meaning (drafted self.old) (with_texts image.now texts.entry) (told_load result) }
    {
        self.table.load(image, texts)
    }

    // Takes a live transfer out and answers its two nodes. No other transfer changes.
    pub fn cancel(&mut self, ticket: u16) -> Result<(u16, u16), TicketRefusal>
        ensures answer { told_by ticket_refusal result ≡ cancel_due (drafted self.old) ticket }
        ensures book { drafted self.new ≡ cancelled (drafted self.old) ticket }
        ensures others { Untouched self.old self.new }
    {
        self.table.cancel(ticket)
    }

    // How few rounds would do for the live transfers; 0 where none is live.
    pub fn need(&self) -> u8
        ensures largest { result ≡ largest_load (transfers (drafted self.now).live) }
        ensures least { LeastExactly K.meaning (drafted self.now) result }
    {
        self.table.need()
    }

    // Gives every live transfer a seat: first all their rounds, by the round arranger; then the spines of each round in turn,
    // by the spine arranger.
    pub fn issue(self) -> Timetable<K, A, B>
        ensures book { issued result ≡ drafted self }
        ensures kind { result.kind ≡ self.kind }
        ensures clash_free { Seated K.meaning (drafted self) (seats result) }
        ensures delivers { Delivered K.meaning (drafted self) (seats result) }
        ensures round_meter { A.shows result.round_arranger ≡ grown (A.shows self.round_arranger) (length (drafted self).live) }
        ensures spine_meter { B.shows result.spine_arranger ≡ grown (B.shows self.spine_arranger) (length (drafted self).live) }
    {
        let Draft {
            table,
            mut desk,
            kind,
            mut round_arranger,
            mut spine_arranger,
        } = self;
        desk.seat(&table, &mut round_arranger, &mut spine_arranger);
        Timetable {
            table,
            desk,
            kind,
            round_arranger,
            spine_arranger,
        }
    }

    // The live transfers with their tickets, how many tickets have been given, the sizes and the number of rounds.
    pub fn table(&self) -> &Table
        ensures { model result.now ≡ drafted self.now }
    {
        &self.table
    }

    // The cabinet kind.
    pub fn kind(&self) -> &K
        ensures { result.now ≡ self.now.kind }
    {
        &self.kind
    }

    // The round arranger.
    pub fn round_arranger(&self) -> &A
        ensures { result.now ≡ self.now.round_arranger }
    {
        &self.round_arranger
    }

    // The spine arranger.
    pub fn spine_arranger(&self) -> &B
        ensures { result.now ≡ self.now.spine_arranger }
    {
        &self.spine_arranger
    }
}
