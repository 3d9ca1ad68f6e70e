// The lines of a trace, over any cabinet kind.
ghost use Rattle.std.specs.Prelude.{◌≡◌, IfOk, string_bytes};
ghost use Rattle.crossbar.specs.Refusals.{Answers};
ghost use Rattle.tracer.specs.Lines.{crossings, line_due, lines_due, trace_due};

use cabinet::kind::Cabinet;
use crossbar::refusal::RouteError;
use crossbar::wires::{Hop, Wire};
use ports::sizes::Sizes;
use ports::transfer::Transfer;
use std::alloc::{AllocError, Global};

// Traces transfers through a cabinet of a kind and sizes.
#[derive(Drop)]
pub struct Tracer<'a, K> {
    pub heap: Global,
    pub kind: &'a K,
    pub sizes: Sizes,
}

impl<K: Cabinet> Tracer<'_, K> {
    // The wires of a route, each with its two ends.
    #[tactic(auto, using(crate::proofs::Steps::wire_more))]
    fn wires_text(&self, wires: &[Wire]) -> Result<String, AllocError>
        ensures { IfOk result (λ t. string_bytes t ≡ crossings (K.meaning self.now.sizes.m self.now.sizes.n) wires.now) }
    {
        let mut text = String::new(self.heap);
        for &wire in wires {
            match self.kind.far_end(self.sizes, wire) {
                Some(end) => write!(text, "{}, ", Hop { wire, end })?,
                None => write!(text, "{wire} -> nowhere, ")?,
            }
        }
        Ok(text)
    }

    // The line of one spine: the header's bytes, the wires that the packet crosses, the node that it reaches.
    pub fn spine_line(&self, transfer: Transfer, spine: u8) -> Result<String, RouteError>
        ensures { Answers string_bytes result (line_due (K.meaning self.now.sizes.m self.now.sizes.n) self.now.sizes.m self.now.sizes.n transfer.sender transfer.receiver spine) }
    {
        let delivery = self.deliver(transfer, spine)?;
        let wires = self.wires_text(&delivery.wires)?;
        let line = delivery.line(self.heap, spine, &wires)?;
        Ok(line)
    }

    // The lines of all spines, in order.
    #[tactic(auto, using(crate::proofs::Steps::line_more, crate::proofs::Steps::line_is, crate::proofs::Steps::lines_told), unfolding(crate::specs::Lines::lines_due))]
    fn spine_lines(&self, transfer: Transfer) -> Result<String, RouteError>
        ensures { Answers string_bytes result (lines_due (K.meaning self.now.sizes.m self.now.sizes.n) self.now.sizes.m self.now.sizes.n transfer.sender transfer.receiver) }
    {
        self.sizes.check_transfer(transfer, 0)?;
        let mut text = String::new(self.heap);
        for spine in 0..self.sizes.n {
            let line = self.spine_line(transfer, spine)?;
            text.push_str(&line)?;
        }
        Ok(text)
    }

    // The whole trace of a transfer.
    pub fn trace(&self, transfer: Transfer) -> Result<String, RouteError>
        ensures { Answers string_bytes result (trace_due (K.meaning self.now.sizes.m self.now.sizes.n) self.now.sizes.m self.now.sizes.n transfer.sender transfer.receiver) }
    {
        let mut text = self.spine_lines(transfer)?;
        let spines = self.sizes.n;
        let Transfer { sender, receiver } = transfer;
        writeln!(
            text,
            "spines traced: {spines}, each header leads from node {sender} to node {receiver}"
        )?;
        Ok(text)
    }
}
