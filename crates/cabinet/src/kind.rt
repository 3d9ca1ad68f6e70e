// The interface of a cabinet kind: what it means, the laws it owes, and the walk of a packet through it.
ghost use Rattle.std.specs.Prelude.{◌≡◌, ℕ, IfOk};
ghost use Rattle.crossbar.specs.Refusals.{told, told_rest, Answers};
ghost use Rattle.cabinet.specs.Wiring.{Meaning, eaten, hop, hopped, walked, headed, route, routed, route_told};
ghost use Rattle.cabinet.specs.Laws.{Arrival, Meeting};

use crossbar::refusal::{RouteError, RouteRefusal};
use crossbar::wires::{FarEnd, Hop, Route, Switch, Wire};
use ports::sizes::Sizes;
use ports::transfer::Transfer;
use std::alloc::{AllocError, Global};

// The first byte of a packet, which a switch eats, and the rest.
fn eat(bytes: &[u8]) -> Result<(u8, &[u8]), RouteRefusal>
    ensures { told_rest result ≡ eaten bytes.now }
{
    match bytes {
        [] => Err(RouteRefusal::BytesEnd),
        [first, rest @ ..] => Ok((*first, rest)),
    }
}

// A cabinet kind. An implementation gives its meaning, shows the two laws, and answers by its meaning; what a packet
// does then follows for every kind alike. Sizes come with each call: a kind is chosen once, and sizes are set again and
// again.
pub trait Cabinet {
    // What the kind means for each m and n: its wires, the exits that bytes name, its headers.
    ghost meaning: { ℕ → ℕ → Meaning };

    // The far end of a wire; none where no such wire is.
    fn far_end(&self, sizes: Sizes, wire: Wire) -> Option<FarEnd>
        ensures { result ≡ (meaning sizes.m sizes.n).far_end wire };

    // The exit port that a byte names at an entry port; none where it names none.
    fn exit(&self, sizes: Sizes, entry: u16, byte: u8) -> Option<i32>
        ensures { result ≡ (meaning sizes.m sizes.n).exit entry byte };

    // The header for a transfer and a spine.
    fn header(
        &self,
        sizes: Sizes,
        transfer: Transfer,
        spine: u8,
    ) -> Result<(u8, u8, u8), RouteRefusal>
        ensures { told result ≡ headed (meaning sizes.m sizes.n) sizes.m sizes.n transfer.sender transfer.receiver spine };

    // What a switch does with one byte: the wire by which the packet leaves, and its far end.
    fn leave(&self, sizes: Sizes, switch: Switch, entry: u16, byte: u8) -> Result<Hop, RouteRefusal>
        ensures { told result ≡ hop (meaning sizes.m sizes.n) switch entry byte }
    {
        let exit = self.exit(sizes, entry, byte).ok_or(RouteRefusal::TopBits)?;
        let wire = Wire::FromExit(switch, exit);
        let end = self.far_end(sizes, wire).ok_or(RouteRefusal::NoWire)?;
        Ok(Hop { wire, end })
    }

    // One hop: the switch eats one byte, and the packet leaves with the others at the exit that the byte names.
    fn hop<'a>(
        &self,
        sizes: Sizes,
        switch: Switch,
        entry: u16,
        bytes: &'a [u8],
    ) -> Result<(Hop, &'a [u8]), RouteRefusal>
        ensures { told_rest result ≡ hopped (meaning sizes.m sizes.n) switch entry bytes.now }
    {
        let (first, rest) = eat(bytes)?;
        let hop = self.leave(sizes, switch, entry, first)?;
        Ok((hop, rest))
    }

    // The node that the bytes lead to from a sender, and the bytes that no switch has eaten.
    fn walk<'a>(
        &self,
        sizes: Sizes,
        sender: u16,
        bytes: &'a [u8],
    ) -> Result<(u16, &'a [u8]), RouteRefusal>
        ensures { told_rest result ≡ walked (meaning sizes.m sizes.n) sizes.m sizes.n sender bytes.now }
    {
        sizes.check_sender(sender)?;
        let own = Wire::FromNode(sender);
        let mut at = self.far_end(sizes, own).ok_or(RouteRefusal::NoWire)?;
        let mut unread = bytes;
        loop {
            match at {
                FarEnd::Node(node) => return Ok((node, unread)),
                FarEnd::Entry(switch, entry) => {
                    let (hop, rest) = self.hop(sizes, switch, entry, unread)?;
                    at = hop.end;
                    unread = rest;
                }
            }
        }
    }

    // The wires that the bytes lead over from a sender, in order, the sender's own first, up to where the walk ends.
    fn crossed(
        &self,
        heap: Global,
        sizes: Sizes,
        sender: u16,
        bytes: &[u8],
    ) -> Result<Vec<Wire>, AllocError>
        ensures { IfOk result (λ v. v.items ≡ route (meaning sizes.m sizes.n) sender bytes.now) }
    {
        let mut wires = Vec::new(heap);
        let own = Wire::FromNode(sender);
        let Some(mut at) = self.far_end(sizes, own) else {
            return Ok(wires);
        };
        wires.push(own)?;
        let mut unread = bytes;
        while let FarEnd::Entry(switch, entry) = at {
            let Ok((hop, rest)) = self.hop(sizes, switch, entry, unread) else {
                return Ok(wires);
            };
            wires.push(hop.wire)?;
            at = hop.end;
            unread = rest;
        }
        Ok(wires)
    }

    // The walk again, with the wires that it crosses. Memory is asked for only where the walk ends at a node.
    fn route<'a>(
        &self,
        heap: Global,
        sizes: Sizes,
        sender: u16,
        bytes: &'a [u8],
    ) -> Result<Route<'a>, RouteError>
        ensures { Answers route_told result (routed (meaning sizes.m sizes.n) sizes.m sizes.n sender bytes.now) }
    {
        let (node, unread) = self.walk(sizes, sender, bytes)?;
        let wires = self.crossed(heap, sizes, sender, bytes)?;
        Ok(Route {
            wires,
            node,
            unread,
        })
    }

    // Every header ends at its receiver after three hops.
    ghost arrival: { Arrival meaning };

    // Two headers have a wire in common if and only if their transfers clash.
    ghost meeting: { Meeting meaning };
}
