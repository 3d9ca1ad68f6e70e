// The spines that an arranger gives to the transfers of one round.
ghost use Rattle.std.specs.Prelude.{◌≡◌, map, length, is_ok, if◌then◌else◌, IfOk};
ghost use Rattle.lines.specs.Arrangers.{grown};
ghost use Rattle.lines.specs.Lines.{colours};
ghost use Rattle.spinesets.specs.Inner.{unassigned};
ghost use Rattle.spinesets.specs.Sharing.{lines_of, transfers_of, spines_of, Shares};

use crate::assigned::Assigned;
use failure::Failure;
use lines::arranger::Arranger;
use lines::line::Line;
use lines::refusal::ArrangeRefusal;
use ports::transfer::Transfer;
use std::alloc::{AllocError, Global};
use timetables::ends::by_line;

// Why no spines are handed out: the arranger refuses, or there is no memory.
pub type ShareError = Failure<ArrangeRefusal>;

// The lines of transfers, in order.
fn as_lines(heap: Global, transfers: &[Transfer], n: u8) -> Result<Vec<Line>, AllocError>
    ensures { IfOk result (λ v. v.items ≡ lines_of n transfers.now) }
{
    transfers
        .iter()
        .map(|transfer| by_line(*transfer, n))
        .collect(heap)
}

// A transfer with spine 0, until it is given its own.
fn unassigned(transfer: Transfer) -> Assigned
    ensures { result ≡ unassigned transfer }
{
    Assigned { transfer, spine: 0 }
}

// Each transfer with spine 0, in order.
fn all_unassigned(heap: Global, transfers: &[Transfer]) -> Result<Vec<Assigned>, AllocError>
    ensures { IfOk result (λ v. v.items ≡ map unassigned transfers.now) }
{
    transfers
        .iter()
        .map(|transfer| unassigned(*transfer))
        .collect(heap)
}

// Gives each transfer the spine that is the colour of its line. The lines are read by number: a loop over a `zip` would leave
// it unproved what was written to the transfers.
#[tactic(auto, using(crate::proofs::Steps::assigning))]
fn assign(assigned: &mut [Assigned], lines: &[Line])
    requires { length assigned.old ≡ length lines.now }
    ensures transfers { transfers_of assigned.new ≡ transfers_of assigned.old }
    ensures spines { spines_of assigned.new ≡ colours lines.now }
{
    for (i, one) in assigned.iter_mut().enumerate() {
        one.spine = lines[i].colour;
    }
}

// Gives each transfer one of n spines, such that transfers with a common send line or a common receive line have
// different ones; n nodes stand on each line. All memory is got before the arranger is called, so that without memory its
// meter stays as it was.
pub fn share_out<A: Arranger>(
    heap: Global,
    arranger: &mut A,
    transfers: &[Transfer],
    n: u8,
) -> Result<Vec<Assigned>, ShareError>
    ensures spines { Shares result (A.served n) n transfers.now }
    ensures meter { A.shows arranger.new ≡ (if is_ok result
        then grown (A.shows arranger.old) (length transfers.now)
        else A.shows arranger.old) }
{
    if !arranger.serves(n) {
        return Err(Failure::Refused(ArrangeRefusal::NotServed));
    }
    let mut lines = as_lines(heap, transfers, n)?;
    let mut assigned = all_unassigned(heap, transfers)?;
    arranger.arrange(lines.as_mut_slice(), n)?;
    assign(assigned.as_mut_slice(), lines.as_slice());
    Ok(assigned)
}
