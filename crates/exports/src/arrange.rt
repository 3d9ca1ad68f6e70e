// Arranges lines that stand in bytes, by any arranger.
ghost use Rattle.std.specs.Prelude.{◌≡◌, ◌*◌, length, is_ok, if◌then◌else◌};
ghost use Rattle.lines.specs.Refusals.{told};
ghost use Rattle.lines.specs.Arrangers.{grown, meter_after};
ghost use Rattle.failure.specs.declared.Failure.TheVariants.{Refused};
ghost use Rattle.exports.specs.declared.error.BytesRefusal.TheVariants.{Lines};
ghost use Rattle.exports.specs.Bytes.{lines_of, refusal_in, Repeats, Rewrites, Outcome, code_of};

use crate::bytes::{are_whole, decode, recolour};
use crate::error::{BytesError, BytesRefusal};
use failure::Failure;
use lines::arranger::Arranger;
use lines::line::Line;
use lines::refusal::ArrangeRefusal;
use std::alloc::{AllocError, Global};

// Has the arranger arrange the lines some times over; the first refusal ends it.
fn repeat<A: Arranger>(
    arranger: &mut A,
    lines: &mut [Line],
    c: u8,
    times: u32,
) -> Result<(), ArrangeRefusal>
    ensures refused { told result ≡ refusal_in times (A.served c) c lines.old }
    ensures lines { Repeats result times c lines.old lines.new }
    ensures meter { A.shows arranger.new ≡ meter_after result (times * length lines.old) (A.shows arranger.old) }
{
    for _done in 0..times {
        arranger.arrange(lines, c)?;
    }
    Ok(())
}

// The refusal of an arranger, as that of the bytes.
fn refused(refusal: ArrangeRefusal) -> BytesError
    ensures { result ≡ Refused (Lines refusal) }
{
    Failure::Refused(BytesRefusal::Lines(refusal))
}

// Arranges the lines of the bytes `times` times over, and puts their colours into the bytes.
#[tactic(auto, using(crate::proofs::Outcomes::outcome))]
pub fn arrange_bytes<A: Arranger>(
    arranger: &mut A,
    heap: Global,
    bytes: &mut [u8],
    c: u8,
    times: u32,
) -> Result<(), BytesError>
    ensures bytes { Rewrites result times (A.served c) c bytes.old bytes.new }
    ensures outcome { Outcome times (A.served c) c bytes.old bytes.new (code_of result) }
    ensures meter { A.shows arranger.new ≡ (if is_ok result
        then grown (A.shows arranger.old) (times * length (lines_of bytes.old))
        else A.shows arranger.old) }
{
    if !are_whole(bytes) {
        return Err(Failure::Refused(BytesRefusal::BrokenLine));
    }
    let mut lines = decode(heap, bytes)?;
    repeat(arranger, lines.as_mut_slice(), c, times).map_err(refused)?;
    recolour(bytes, lines.as_slice());
    Ok(())
}

// The same by an arranger that was only just made, if there was memory for it.
pub(crate) fn arrange_by_new<A: Arranger + Drop>(
    made: Result<A, AllocError>,
    heap: Global,
    bytes: &mut [u8],
    c: u8,
    times: u32,
) -> Result<(), BytesError>
    ensures { Outcome times (A.served c) c bytes.old bytes.new (code_of result) }
{
    let mut arranger = made?;
    arrange_bytes(&mut arranger, heap, bytes, c, times)
}
