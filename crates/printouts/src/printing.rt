// The sheets, or the line of the refusal.
ghost use Rattle.std.specs.Prelude.{◌≡◌, ◌+◌, ◌*◌, ◌<◌, ◌≤◌, ◌++◌, IfOk, is_err, length, codes};
ghost use Rattle.kinds.specs.Folded.{folded};
ghost use Rattle.image.specs.Faults.{fault_text};
ghost use Rattle.bookings.specs.Model.{new_book};
ghost use Rattle.book.specs.Books.{issued, seats};
ghost use Rattle.sheets.specs.Sheets.{sheet_text};
ghost use Rattle.printouts.specs.Faults.{plan_fault};
ghost use Rattle.printouts.specs.Plans.{sheets_text, planned, Prints};

use crate::plan::{FoldedTimetable, plan};
use crate::printout::Printout;
use crate::refusal::PlanRefusal;
use failure::Failure;
use sheets::sheet::sheet;
use std::alloc::{AllocError, Global};

// Adds the sheet of a round, which is written into the buffer first.
fn push_sheet(
    text: &mut Vec<u8>,
    buffer: &mut [u8],
    timetable: &FoldedTimetable,
    round: u8,
) -> Result<(), AllocError>
    requires round { round < (issued timetable.now).rounds }
    requires room { 8 + 20 * length (issued timetable.now).live ≤ length buffer.old }
    ensures { let t = timetable.now in IfOk result (λ _. text.new.items ≡ text.old.items ++ sheet_text folded (issued t) (seats t) round) }
{
    let Ok(length) = sheet(timetable, round, buffer) else {
        unreachable()
    };
    text.extend_from_slice(&buffer[..length])
}

// The sheets of all rounds, one after the other. No round has more transfers than are live.
#[tactic(auto, using(crate::proofs::Collecting::collecting))]
fn sheets_text(heap: Global, timetable: &FoldedTimetable) -> Result<Vec<u8>, AllocError>
    ensures { IfOk result (λ v. v.items ≡ sheets_text (issued timetable.now) (seats timetable.now)) }
{
    let longest = 8 + 20 * timetable.table().live().len();
    let mut buffer = vec![in heap; 0u8; longest]?;
    let mut text = Vec::new(heap);
    for round in 0..timetable.table().rounds() {
        push_sheet(&mut text, buffer.as_mut_slice(), timetable, round)?;
    }
    Ok(text)
}

// The line of a refusal.
fn refusal_line(heap: Global, refusal: PlanRefusal) -> Result<Vec<u8>, AllocError>
    ensures { IfOk result (λ v. v.items ≡ fault_text (plan_fault refusal) ++ codes "\n") }
{
    let line = format!(in heap; "{refusal}\n")?;
    Ok(line.into_bytes())
}

// What is printed for a job image: the sheets of all rounds of a new book that is fitted to its head and filled with its
// transfers; or else the line of the first refusal.
#[tactic(auto, unfolding(crate::specs::Plans::Prints))]
pub fn printout(heap: Global, image: &[u8]) -> Result<Printout, AllocError>
    ensures text { IfOk result (λ p. Prints image.now p.text.items) }
    ensures refusal { IfOk result (λ p. p.is_refusal ≡ is_err (planned new_book image.now)) }
{
    match plan(heap, image) {
        Ok(timetable) => Ok(Printout {
            text: sheets_text(heap, &timetable)?,
            is_refusal: false,
        }),
        Err(Failure::Refused(refusal)) => Ok(Printout {
            text: refusal_line(heap, refusal)?,
            is_refusal: true,
        }),
        Err(Failure::OutOfMemory) => Err(AllocError),
    }
}
