// Why a walk or a header is refused.
ghost use Rattle.std.specs.Prelude.{◌≡◌};
ghost use Rattle.crossbar.specs.Refusals.{refusal};
ghost use Rattle.failure.specs.declared.Failure.TheVariants.{Refused};

use failure::Failure;

// Each case holds the values that are told with its number; specs/Refusals.antt has the numbers.
#[derive(Clone, Copy, PartialEq, Eq, Debug)]
pub enum RouteRefusal {
    // m is not 1 to 32
    LineCount,
    // n is not 1, 2, 4, 8 or 16
    NodeCount,
    // the sender is not a node
    Sender(u16),
    // the receiver is not a node
    Receiver(u16),
    // the top bits of a route byte are not 10
    TopBits,
    // no wire begins at the exit that a route byte names
    NoWire,
    // the bytes end before the packet is at a node
    BytesEnd,
    // the spine is not below n
    Spine,
}

impl RouteRefusal {
    // The number that docs/REFUSALS.md gives the refusal. Cases with values have no discriminant to read.
    pub fn number(self) -> u8
        ensures { result ≡ (refusal self).number }
    {
        match self {
            RouteRefusal::LineCount => 1,
            RouteRefusal::NodeCount => 2,
            RouteRefusal::Sender(_) => 6,
            RouteRefusal::Receiver(_) => 7,
            RouteRefusal::TopBits => 27,
            RouteRefusal::NoWire => 28,
            RouteRefusal::BytesEnd => 29,
            RouteRefusal::Spine => 30,
        }
    }

    // The node that the refusal is about, where it is about one.
    pub fn node(self) -> Option<u16>
        ensures { result ≡ (refusal self).node }
    {
        match self {
            RouteRefusal::Sender(node) | RouteRefusal::Receiver(node) => Some(node),
            _ => None,
        }
    }
}

// Why a route is not handed out: the walk is refused, or there is no memory for the list of wires.
pub type RouteError = Failure<RouteRefusal>;

// Written by hand, since a derived one would not tell which case it gives.
impl From<RouteRefusal> for Failure<RouteRefusal> {
    ghost from_gives = { λ e r. r ≡ Refused e };

    fn from(e: RouteRefusal) -> Failure<RouteRefusal> {
        Failure::Refused(e)
    }
}
