// What is asked of a table.
ghost use Rattle.std.specs.Prelude.{◌≡◌, ◌<◌, ◌+◌, IfOk, OnOk, [], length, is_some, nat_lt};
ghost use Rattle.timetables.specs.Loads.{largest_load, transfer_at};
ghost use Rattle.crossbar.specs.Refusals.{told_by};
ghost use Rattle.bookings.specs.Refusals.{fit_refusal, booking_refusal, ticket_refusal};
ghost use Rattle.bookings.specs.Model.{position_of, booking_at, transfers, new_book, fit_due, fitted, nodes_due, booking_due, appended, booked, cancel_due, cancelled};
ghost use Rattle.bookings.specs.Steps.{Bookable, Split, taken_out};
ghost use Rattle.bookings.specs.Counts.{Counted};
ghost use Rattle.bookings.specs.Tables.{model};

use super::Table;
use crate::booking::Booking;
use crate::loads::{Loads, count_both};
use crate::refusal::{BookRefusal, FitRefusal, TicketRefusal};
use ports::sizes::Sizes;
use ports::transfer::Transfer;
use std::alloc::{AllocError, Global};

impl Table {
    // The table of a new book: one line, one node, one round and no transfer. All memory that it will want is got here.
    pub fn new(heap: Global) -> Result<Table, AllocError>
        ensures { IfOk result (λ t. model t ≡ new_book) }
    {
        let live = Vec::with_capacity(heap, 1024)?;
        let loads = Loads::new(heap)?;
        Ok(Table {
            sizes: Sizes { m: 1, n: 1 },
            rounds: 1,
            given: 0,
            live,
            loads,
        })
    }

    // Sets the sizes and the number of rounds; `served` says whether the round arranger serves that number. Tickets go on
    // from where they were.
    pub fn fit(&mut self, sizes: Sizes, rounds: u8, served: bool) -> Result<(), FitRefusal>
        ensures answer { told_by fit_refusal result ≡ fit_due (model self.old) served sizes.m sizes.n rounds }
        ensures table { model self.new ≡ fitted (model self.old) served sizes.m sizes.n rounds }
    {
        if !sizes.lines_fit() {
            return Err(FitRefusal::LineCount);
        }
        if !sizes.nodes_fit() {
            return Err(FitRefusal::NodeCount);
        }
        if !(1..=64).contains(&rounds) {
            return Err(FitRefusal::RoundCount);
        }
        if !served {
            return Err(FitRefusal::RoundsNotServed);
        }
        if !self.live.is_empty() {
            return Err(FitRefusal::TransferLive);
        }
        self.sizes = sizes;
        self.rounds = rounds;
        Ok(())
    }

    // What a booking tests of the two nodes.
    fn check_nodes(&self, transfer: Transfer) -> Result<(), BookRefusal>
        ensures answer { told_by booking_refusal result ≡ nodes_due (model self.now) transfer }
        ensures fits { let b = model self.now in OnOk result (Bookable b.m b.n b.rounds (transfers b.live) transfer) }
    {
        let Transfer { sender, receiver } = transfer;
        if !self.sizes.is_node(sender) {
            return Err(BookRefusal::Sender(sender));
        }
        if !self.sizes.is_node(receiver) {
            return Err(BookRefusal::Receiver(receiver));
        }
        if self.loads.sends(sender) >= self.rounds {
            return Err(BookRefusal::SenderFull(sender));
        }
        if self.loads.receives(receiver) >= self.rounds {
            return Err(BookRefusal::ReceiverFull(receiver));
        }
        Ok(())
    }

    // Puts a transfer last among the live ones, under the next ticket, and answers the ticket.
    #[tactic(auto, using(crate::proofs::Tickets::rising_push))]
    fn append(&mut self, transfer: Transfer) -> u16
        requires fits { let b = model self.old in Bookable b.m b.n b.rounds (transfers b.live) transfer }
        requires room { length (model self.old).live < 1024 }
        requires tickets { (model self.old).given < 65535 }
        ensures ticket { result ≡ (model self.old).given + 1 }
        ensures table { model self.new ≡ appended (model self.old) transfer }
    {
        let ticket = self.given + 1;
        self.given = ticket;
        self.live.push_reserved(Booking { ticket, transfer });
        self.loads.add(transfer);
        ticket
    }

    // Books a transfer and answers its ticket. Transfers between the same nodes are separate transfers.
    pub fn book(&mut self, transfer: Transfer) -> Result<u16, BookRefusal>
        ensures answer { told_by booking_refusal result ≡ booking_due (model self.old) transfer }
        ensures table { model self.new ≡ booked (model self.old) transfer }
    {
        self.check_nodes(transfer)?;
        if self.live.len() >= 1024 {
            return Err(BookRefusal::BookFull);
        }
        if self.given == u16::MAX {
            return Err(BookRefusal::TicketsSpent);
        }
        Ok(self.append(transfer))
    }

    // Whether the live transfer at a place has a lower ticket.
    fn is_lower(&self, place: usize, ticket: u16) -> bool
        requires { place < length (model self.now).live }
        ensures { result ≡ nat_lt (booking_at (model self.now).live place).ticket ticket }
    {
        self.live[place].ticket < ticket
    }

    // How many live transfers have a lower ticket. Tickets rise, so the place is looked for by halving.
    #[tactic(auto, using(crate::proofs::Tickets::halving))]
    fn count_below(&self, ticket: u16) -> usize
        ensures { Split ticket (model self.now).live result result }
    {
        let mut low = 0;
        let mut high = self.live.len();
        while low < high {
            let middle = low + (high - low) / 2;
            if self.is_lower(middle, ticket) {
                low = middle + 1;
            } else {
                high = middle;
            }
        }
        low
    }

    // The position of a ticket among the live transfers; none where it is not live.
    #[tactic(auto, using(crate::proofs::Tickets::placing))]
    pub fn position(&self, ticket: u16) -> Option<usize>
        ensures { result ≡ position_of ticket (model self.now).live }
    {
        let place = self.count_below(ticket);
        if place < self.live.len() && self.live[place].ticket == ticket {
            return Some(place);
        }
        None
    }

    // Takes the live transfer at a place out and answers it.
    #[tactic(auto, using(crate::proofs::Tickets::rising_remove))]
    pub(super) fn take_out(&mut self, place: usize) -> Transfer
        requires { place < length (model self.old).live }
        ensures transfer { result ≡ transfer_at (transfers (model self.old).live) place }
        ensures table { model self.new ≡ taken_out (model self.old) place }
    {
        let transfer = self.live.remove(place).transfer;
        self.loads.remove(transfer);
        transfer
    }

    // Takes a live transfer out and answers its two nodes. No other transfer changes.
    #[tactic(auto, using(crate::proofs::Tickets::cancelling))]
    pub fn cancel(&mut self, ticket: u16) -> Result<(u16, u16), TicketRefusal>
        ensures answer { told_by ticket_refusal result ≡ cancel_due (model self.old) ticket }
        ensures table { model self.new ≡ cancelled (model self.old) ticket }
    {
        let Some(place) = self.position(ticket) else {
            return Err(TicketRefusal::NotLive);
        };
        let Transfer { sender, receiver } = self.take_out(place);
        Ok((sender, receiver))
    }

    // The largest load, where both tables of counts hold zeros.
    #[tactic(auto, using(crate::proofs::Largest::counting))]
    fn count_all(&self, sent: &mut [u8], received: &mut [u8]) -> u8
        requires send_room { length sent.old ≡ 512 }
        requires receive_room { length received.old ≡ 512 }
        requires zero { Counted sent.old received.old [] }
        ensures { result ≡ largest_load (transfers (model self.now).live) }
    {
        let mut most = 0;
        for booking in self.live.as_slice() {
            most = most.max(count_both(sent, received, booking.transfer));
        }
        most
    }

    // The largest number of live transfers that one node sends or receives, 0 where none is live. It counts them.
    #[tactic(auto, using(crate::proofs::Empty::zeros_counted))]
    pub fn need(&self) -> u8
        ensures { result ≡ largest_load (transfers (model self.now).live) }
    {
        let mut sent = [0u8; 512];
        let mut received = [0u8; 512];
        self.count_all(&mut sent, &mut received)
    }

    // Whether a ticket is that of a live transfer.
    pub fn is_live(&self, ticket: u16) -> bool
        ensures { result ≡ is_some (position_of ticket (model self.now).live) }
    {
        self.position(ticket).is_some()
    }
}
