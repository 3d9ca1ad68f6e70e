// Why lines are not arranged.
ghost use Rattle.std.specs.Prelude.{◌≡◌};
ghost use Rattle.failure.specs.declared.Failure.TheVariants.{Refused};
ghost use Rattle.lines.specs.Refusals.{refusal};

use crate::line::Side;
use failure::Failure;

// Each case holds the values that are told with its number; specs/Refusals.antt has the numbers.
#[derive(Clone, Copy, PartialEq, Eq, Debug)]
pub enum ArrangeRefusal {
    // the arranger does not serve this count of colours
    NotServed,
    // there are more than 1,024 lines
    TooManyLines,
    // an end is above 511
    EndAbove,
    // more lines stand at the end than there are colours
    Crowded(Side, u16),
}

impl ArrangeRefusal {
    // The number that docs/REFUSALS.md gives the refusal. Cases with values have no discriminant to read.
    pub fn number(self) -> u8
        ensures { result ≡ (refusal self).number }
    {
        match self {
            ArrangeRefusal::NotServed => 23,
            ArrangeRefusal::TooManyLines => 24,
            ArrangeRefusal::EndAbove => 25,
            ArrangeRefusal::Crowded(_, _) => 26,
        }
    }

    // The side and the number of the end that the refusal is about, where it is about one.
    pub fn end(self) -> Option<(Side, u16)>
        ensures { result ≡ (refusal self).end }
    {
        match self {
            ArrangeRefusal::Crowded(side, end) => Some((side, end)),
            _ => None,
        }
    }
}

// Written by hand, since a derived one would not tell which case it gives.
impl From<ArrangeRefusal> for Failure<ArrangeRefusal> {
    ghost from_gives = { λ e r. r ≡ Refused e };

    fn from(e: ArrangeRefusal) -> Failure<ArrangeRefusal> {
        Failure::Refused(e)
    }
}
