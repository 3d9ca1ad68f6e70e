// The header of a transfer, for any kind that reaches each spine by one port of a line, the same up and down.
ghost use Rattle.std.specs.Prelude.{◌≡◌};
ghost use Rattle.crossbar.specs.Refusals.{told};
ghost use Rattle.kinds.specs.Headers.{headed_by};

use crossbar::refusal::RouteRefusal;
use ports::bytes::turn_byte;
use ports::sizes::Sizes;
use ports::transfer::Transfer;

// From the sender's port to the port of the spine, from line to line at the spine, and out at the receiver's port.
pub(crate) fn header_by(
    sizes: Sizes,
    transfer: Transfer,
    spine: u8,
    port: u16,
) -> Result<(u8, u8, u8), RouteRefusal>
    ensures { told result ≡ headed_by sizes.m sizes.n transfer.sender transfer.receiver spine port }
{
    sizes.check_transfer(transfer, spine)?;
    let Transfer { sender, receiver } = transfer;
    let n = u16::from(sizes.n);
    Ok((
        turn_byte(sender % n, port),
        turn_byte(sender / n, receiver / n),
        turn_byte(port, receiver % n),
    ))
}
