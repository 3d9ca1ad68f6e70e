// A header sent off, over any kind.
ghost use Rattle.std.specs.Prelude.{◌≡◌, IfOk, string_bytes};
ghost use Rattle.crossbar.specs.Refusals.{Answers};
ghost use Rattle.tracer.specs.Delivered.{delivered, delivery_told};
ghost use Rattle.tracer.specs.Lines.{line_text};

use crate::lines::Tracer;
use cabinet::kind::Cabinet;
use crossbar::digits::{Hex, TwoDigits};
use crossbar::refusal::RouteError;
use crossbar::wires::Wire;
use ports::transfer::Transfer;
use std::alloc::{AllocError, Global};

// The three bytes of a header, the wires that it crosses, and the node that it reaches.
#[derive(Drop)]
pub(crate) struct Delivery {
    pub header: (u8, u8, u8),
    pub wires: Vec<Wire>,
    pub node: u16,
}

impl Delivery {
    // The line of a delivery over a spine, with its wires in words.
    pub(crate) fn line(&self, heap: Global, spine: u8, wires: &str) -> Result<String, AllocError>
        ensures { IfOk result (λ t. string_bytes t ≡ line_text spine self.now.header wires.now self.now.node) }
    {
        let (first, second, third) = self.header;
        format!(in heap;
            "{} {} {} {}  {wires}reaches node {}\n",
            TwoDigits(spine),
            Hex(first),
            Hex(second),
            Hex(third),
            self.node
        )
    }
}

impl<K: Cabinet> Tracer<'_, K> {
    // The header of a transfer and a spine, walked from the sender. By the law of arrival it reaches the receiver.
    #[tactic(auto, using(crate::proofs::Deliveries::routed_there, crate::proofs::Deliveries::delivered_there), unfolding(crate::specs::Delivered::delivered))]
    pub(crate) fn deliver(&self, transfer: Transfer, spine: u8) -> Result<Delivery, RouteError>
        ensures { Answers delivery_told result (delivered (K.meaning self.now.sizes.m self.now.sizes.n) self.now.sizes.m self.now.sizes.n transfer.sender transfer.receiver spine) }
    {
        let header = self.kind.header(self.sizes, transfer, spine)?;
        let bytes = [header.0, header.1, header.2];
        let route = self
            .kind
            .route(self.heap, self.sizes, transfer.sender, &bytes)?;
        Ok(Delivery {
            header,
            wires: route.wires,
            node: route.node,
        })
    }
}
