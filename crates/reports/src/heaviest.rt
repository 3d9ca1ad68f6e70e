// The most used node.
ghost use Rattle.std.specs.Prelude.{◌≡◌, ◌≤◌, [], length};
ghost use Rattle.bookings.specs.Model.{transfers};
ghost use Rattle.bookings.specs.Tables.{model};
ghost use Rattle.reports.specs.Heaviest.{node_on, heaviest_due, IsHeaviest};
ghost use Rattle.reports.specs.Steps.{Counts, NodesBelow, node_key, node_loads, MostOn};

use crate::choice::best;
use crate::loads::{NodeLoad, TransferSide};
use bookings::booking::Booking;
use bookings::table::Table;
use ports::transfer::Transfer;

// The node that a transfer names on a side.
fn node_on(side: TransferSide, transfer: Transfer) -> u16
    ensures { result ≡ node_on side transfer }
{
    match side {
        TransferSide::Sending => transfer.sender,
        TransferSide::Receiving => transfer.receiver,
    }
}

// Counts the nodes that the live transfers name on a side.
#[tactic(auto, using(crate::proofs::Counting::counting, crate::proofs::Weighing::node_below))]
fn count_nodes(live: &[Booking], side: TransferSide, counts: &mut [u16])
    requires few { length live.now ≤ 1024 }
    requires low { NodesBelow side live.now (length counts.old) }
    requires none { Counts (node_key side) [] counts.old }
    ensures { Counts (node_key side) live.now counts.new }
{
    for booking in live {
        let node = node_on(side, booking.transfer);
        counts[usize::from(node)] += 1;
    }
}

// The load of each node, by the counts.
#[tactic(auto, using(crate::proofs::Counting::node_filling))]
fn fill(loads: &mut [NodeLoad], side: TransferSide, counts: &[u16])
    requires loads { length loads.old ≡ 512 }
    requires counts { length counts.now ≡ 512 }
    ensures { loads.new ≡ node_loads side counts.now }
{
    for node in 0..512u16 {
        let count = counts[usize::from(node)];
        loads[usize::from(node)] = NodeLoad { side, node, count };
    }
}

// The best load on a side; that of node 0, with 0, where no node is used.
#[tactic(auto, using(crate::proofs::Weighing::most_used_on))]
fn heaviest_on(table: &Table, side: TransferSide) -> NodeLoad
    ensures { MostOn side (transfers (model table.now).live) result }
{
    let mut counts = [0u16; 512];
    count_nodes(table.live(), side, &mut counts);
    let mut loads = [NodeLoad {
        side,
        node: 0,
        count: 0,
    }; 512];
    fill(&mut loads, side, &counts);
    let Some(load) = best(&loads) else {
        unreachable()
    };
    *load
}

// The side and the node that the most live transfers name there, and how many do; none where no transfer is live. Of several
// that are named by equally many, those on the sending side come first, and then the lowest.
#[tactic(auto, using(crate::proofs::Weighing::weighing))]
pub fn heaviest(table: &Table) -> Option<NodeLoad>
    ensures answer { result ≡ heaviest_due (transfers (model table.now).live) }
    ensures heaviest { IsHeaviest (transfers (model table.now).live) result }
{
    let sender = heaviest_on(table, TransferSide::Sending);
    let receiver = heaviest_on(table, TransferSide::Receiving);
    let sides = [sender, receiver];
    let Some(load) = best(&sides) else {
        unreachable()
    };
    if load.count == 0 {
        return None;
    }
    Some(*load)
}
