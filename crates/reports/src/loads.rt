// Loads: how many of some transfers name a node, and how many have a round. Reports choose from them.
ghost use Rattle.std.specs.Ordering.{is_lt};
ghost use Rattle.reports.specs.Loads.{node_above, round_above};
ghost use Rattle.reports.specs.LoadLaws.{node_ranks, node_apart, round_ranks, round_apart};

use crate::choice::Ranked;

// The side on which a transfer names a node: its sender on the sending side, its receiver on the receiving side. The derived
// order has the sending side first.
#[derive(Clone, Copy, PartialEq, Eq, PartialOrd, Ord, Debug)]
pub enum TransferSide {
    Sending,
    Receiving,
}

// How many of some transfers name a node on a side.
#[derive(Clone, Copy, PartialEq, Eq, Debug)]
pub struct NodeLoad {
    pub side: TransferSide,
    pub node: u16,
    pub count: u16,
}

// How many of some transfers have a round.
#[derive(Clone, Copy, PartialEq, Eq, Debug)]
pub struct RoundLoad {
    pub round: u8,
    pub count: u16,
}

// More transfers rank above fewer; of equally many, the sending side above the receiving side, and then the lower node.
impl Ranked for NodeLoad {
    ghost above = { node_above };

    ghost ranks = { node_ranks };

    ghost apart = { node_apart };

    fn is_above(&self, other: &NodeLoad) -> bool {
        let by_count = other.count.cmp(&self.count);
        let by_side = self.side.cmp(&other.side);
        let by_node = self.node.cmp(&other.node);
        by_count.then(by_side).then(by_node).is_lt()
    }
}

// More transfers rank above fewer; of equally many, the lower round.
impl Ranked for RoundLoad {
    ghost above = { round_above };

    ghost ranks = { round_ranks };

    ghost apart = { round_apart };

    fn is_above(&self, other: &RoundLoad) -> bool {
        let by_count = other.count.cmp(&self.count);
        let by_round = self.round.cmp(&other.round);
        by_count.then(by_round).is_lt()
    }
}
