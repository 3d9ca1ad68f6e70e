// How many transfers each node sends, and how many it receives.
ghost use Rattle.std.specs.Prelude.{◌≡◌, ◌<◌, ◌+◌, ◌-◌, max, vec_len, slice_index, slice_set, length, IfOk, replicate};

use ports::transfer::Transfer;
use std::alloc::{AllocError, Global};

// The counts of each of the 512 nodes that a cabinet can have.
#[derive(Drop)]
pub(crate) struct Loads {
    pub(crate) sent: Vec<u8>,
    pub(crate) received: Vec<u8>,
    pub(crate) ghost sent_room: { vec_len sent ≡ 512 },
    pub(crate) ghost received_room: { vec_len received ≡ 512 },
}

impl Loads {
    // Counts of no transfer.
    pub(crate) fn new(heap: Global) -> Result<Loads, AllocError>
        ensures sent { IfOk result (λ l. l.sent.items ≡ replicate 512 0) }
        ensures received { IfOk result (λ l. l.received.items ≡ replicate 512 0) }
    {
        let sent = vec![in heap; 0u8; 512]?;
        let received = vec![in heap; 0u8; 512]?;
        Ok(Loads { sent, received })
    }

    // How many transfers a node sends.
    pub(crate) fn sends(&self, node: u16) -> u8
        requires { node < 512 }
        ensures { result ≡ slice_index self.now.sent.items node }
    {
        self.sent[usize::from(node)]
    }

    // How many it receives.
    pub(crate) fn receives(&self, node: u16) -> u8
        requires { node < 512 }
        ensures { result ≡ slice_index self.now.received.items node }
    {
        self.received[usize::from(node)]
    }

    // Counts a transfer more.
    pub(crate) fn add(&mut self, transfer: Transfer)
        requires sender { transfer.sender < 512 }
        requires receiver { transfer.receiver < 512 }
        requires send_room { slice_index self.old.sent.items transfer.sender < 255 }
        requires receive_room { slice_index self.old.received.items transfer.receiver < 255 }
        ensures sent { self.new.sent.items ≡ slice_set self.old.sent.items transfer.sender (slice_index self.old.sent.items transfer.sender + 1) }
        ensures received { self.new.received.items ≡ slice_set self.old.received.items transfer.receiver (slice_index self.old.received.items transfer.receiver + 1) }
    {
        self.sent[usize::from(transfer.sender)] += 1;
        self.received[usize::from(transfer.receiver)] += 1;
    }

    // Counts a transfer less.
    pub(crate) fn remove(&mut self, transfer: Transfer)
        requires sender { transfer.sender < 512 }
        requires receiver { transfer.receiver < 512 }
        requires sends { 0 < slice_index self.old.sent.items transfer.sender }
        requires receives { 0 < slice_index self.old.received.items transfer.receiver }
        ensures sent { self.new.sent.items ≡ slice_set self.old.sent.items transfer.sender (slice_index self.old.sent.items transfer.sender - 1) }
        ensures received { self.new.received.items ≡ slice_set self.old.received.items transfer.receiver (slice_index self.old.received.items transfer.receiver - 1) }
    {
        self.sent[usize::from(transfer.sender)] -= 1;
        self.received[usize::from(transfer.receiver)] -= 1;
    }
}

// Counts one more at a node and tells the new count.
fn count(counts: &mut [u8], node: u16) -> u8
    requires node { node < length counts.old }
    requires few { slice_index counts.old node < 255 }
    ensures counts { counts.new ≡ slice_set counts.old node (slice_index counts.old node + 1) }
    ensures count { result ≡ slice_index counts.old node + 1 }
{
    let count = counts[usize::from(node)] + 1;
    counts[usize::from(node)] = count;
    count
}

// Counts a transfer at its two nodes and tells the larger of the new counts.
pub(crate) fn count_both(sent: &mut [u8], received: &mut [u8], transfer: Transfer) -> u8
    requires sender { transfer.sender < length sent.old }
    requires receiver { transfer.receiver < length received.old }
    requires send_room { slice_index sent.old transfer.sender < 255 }
    requires receive_room { slice_index received.old transfer.receiver < 255 }
    ensures sent { sent.new ≡ slice_set sent.old transfer.sender (slice_index sent.old transfer.sender + 1) }
    ensures received { received.new ≡ slice_set received.old transfer.receiver (slice_index received.old transfer.receiver + 1) }
    ensures larger { result ≡ max (slice_index sent.old transfer.sender + 1) (slice_index received.old transfer.receiver + 1) }
{
    let sends = count(sent, transfer.sender);
    let receives = count(received, transfer.receiver);
    sends.max(receives)
}
