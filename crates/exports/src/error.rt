// Why lines that stand in bytes are not arranged.
ghost use Rattle.std.specs.Prelude.{◌≡◌};
ghost use Rattle.exports.specs.Bytes.{code_of};

use failure::Failure;
use lines::refusal::ArrangeRefusal;

// Why the bytes are refused.
#[derive(Clone, Copy, PartialEq, Eq, Debug)]
pub enum BytesRefusal {
    // they are no whole lines
    BrokenLine,
    // the arranger refuses their lines
    Lines(ArrangeRefusal),
}

// Why bytes are not arranged: they are refused, or there is no memory.
pub type BytesError = Failure<BytesRefusal>;

// What C is told: 0 where the lines are arranged, the number of the arranger's refusal, or 255.
pub fn code(arranged: Result<(), BytesError>) -> u8
    ensures { result ≡ code_of arranged }
{
    match arranged {
        Ok(()) => 0,
        Err(Failure::Refused(BytesRefusal::Lines(refusal))) => refusal.number(),
        Err(Failure::Refused(BytesRefusal::BrokenLine)) => 255,
        Err(Failure::OutOfMemory) => 255,
    }
}
