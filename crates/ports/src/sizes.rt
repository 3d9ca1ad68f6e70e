// The sizes of a cabinet, and what a call tests of its sizes, nodes and spine before it does anything.
ghost use Rattle.std.specs.Prelude.{◌≡◌};
ghost use Rattle.crossbar.specs.Refusals.{told};
ghost use Rattle.ports.specs.Checks.{lines_fit, nodes_fit, sizes_checked, sender_checked, transfer_checked};
ghost use Rattle.ports.specs.Nodes.{is_node, place};

use crate::transfer::Transfer;
use crossbar::refusal::RouteRefusal;

// m lines with n nodes on each, and n spine switches. Nodes are numbered line after line.
#[derive(Clone, Copy, PartialEq, Eq)]
pub struct Sizes {
    pub m: u8,
    pub n: u8,
}

impl Sizes {
    // Whether m is within its limits.
    pub fn lines_fit(self) -> bool
        ensures { result ≡ lines_fit self.m }
    {
        (1..=32).contains(&self.m)
    }

    // Whether n is one of the five that a cabinet can have.
    pub fn nodes_fit(self) -> bool
        ensures { result ≡ nodes_fit self.n }
    {
        matches!(self.n, 1 | 2 | 4 | 8 | 16)
    }

    // Both sizes within their limits.
    pub fn check(self) -> Result<(), RouteRefusal>
        ensures { told result ≡ sizes_checked self.m self.n }
    {
        if !self.lines_fit() {
            return Err(RouteRefusal::LineCount);
        }
        if !self.nodes_fit() {
            return Err(RouteRefusal::NodeCount);
        }
        Ok(())
    }

    // Whether a number is that of a node.
    pub fn is_node(self, node: u16) -> bool
        ensures { result ≡ is_node self.m self.n node }
    {
        node < u16::from(self.m) * u16::from(self.n)
    }

    // The sizes, and a sender that is a node.
    pub fn check_sender(self, sender: u16) -> Result<(), RouteRefusal>
        ensures { told result ≡ sender_checked self.m self.n sender }
    {
        self.check()?;
        if !self.is_node(sender) {
            return Err(RouteRefusal::Sender(sender));
        }
        Ok(())
    }

    // The sizes, a sender and a receiver that are nodes, and a spine that is there.
    pub fn check_transfer(self, transfer: Transfer, spine: u8) -> Result<(), RouteRefusal>
        ensures { told result ≡ transfer_checked self.m self.n transfer.sender transfer.receiver spine }
    {
        self.check_sender(transfer.sender)?;
        if !self.is_node(transfer.receiver) {
            return Err(RouteRefusal::Receiver(transfer.receiver));
        }
        if spine >= self.n {
            return Err(RouteRefusal::Spine);
        }
        Ok(())
    }

    // The line of a node and its port there; none where it is not a node.
    #[tactic(auto, using(crate::proofs::Places::line_below))]
    pub fn place(self, node: u16) -> Option<(u8, u16)>
        ensures { result ≡ place self.m self.n node }
    {
        if !self.is_node(node) {
            return None;
        }
        let n = u16::from(self.n);
        Some(((node / n) as u8, node % n))
    }
}
