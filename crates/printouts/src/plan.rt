// The timetable of an image.
ghost use Rattle.std.specs.Prelude.{◌≡◌, Ok, IfOk, IfErr, OnOk};
ghost use Rattle.bookings.specs.Model.{new_book};
ghost use Rattle.book.specs.Books.{drafted, issued, seats};
ghost use Rattle.printouts.specs.Plans.{image_fitted, planned, HoldsMeant, IsFoldedTimetable, left_after, TellsFault};

use crate::refusal::{PlanError, PlanRefusal};
use book::draft::Draft;
use book::timetable::Timetable;
use chain::Chain;
use euler::arranger::Euler;
use image::head::Head;
use image::labels::Texts;
use image::opened::Image;
use kinds::folded::Folded;
use std::alloc::{AllocError, Global};

// A book of the folded kind, in which a chain arranger gives rounds and an Euler arranger spines.
pub(crate) type FoldedDraft = Draft<Folded, Chain, Euler>;

// Such a book with seats.
pub(crate) type FoldedTimetable = Timetable<Folded, Chain, Euler>;

// A new one.
fn new_draft(heap: Global) -> Result<FoldedDraft, AllocError>
    ensures { IfOk result (λ d. drafted d ≡ new_book) }
{
    Draft::new(heap, Folded, Chain::new(heap)?, Euler::new(heap)?)
}

// Fits a book to the sizes and the number of rounds in the head of an image.
#[tactic(auto, unfolding(crate::specs::Plans::image_fitted))]
fn fit_to(draft: &mut FoldedDraft, image: &[u8]) -> Result<(), PlanRefusal>
    ensures { left_after result (drafted draft.new) ≡ image_fitted (drafted draft.old) image.now }
{
    let Head { sizes, rounds, .. } = Image::open(image)?.head();
    draft.fit(sizes, rounds)?;
    Ok(())
}

// Fits a new book to the head of an image and books the transfers of the image, beside which both texts are empty.
#[tactic(auto, using(crate::proofs::Planning::planning))]
fn fill(draft: &mut FoldedDraft, image: &[u8]) -> Result<(), PlanRefusal>
    requires { drafted draft.old ≡ new_book }
    ensures answer { left_after result (drafted draft.new) ≡ planned new_book image.now }
    ensures holds { OnOk result (HoldsMeant image.now (drafted draft.new)) }
{
    fit_to(draft, image)?;
    let texts = Texts {
        job: b"",
        site: b"",
    };
    draft.load(image, texts)?;
    Ok(())
}

// The timetable of a new book that is fitted to the head of an image and filled with its transfers.
#[tactic(auto, using(crate::proofs::Planning::seated))]
pub(crate) fn plan(heap: Global, image: &[u8]) -> Result<FoldedTimetable, PlanError>
    ensures book { IfOk result (λ t. planned new_book image.now ≡ Ok (issued t)) }
    ensures holds { IfOk result (λ t. HoldsMeant image.now (issued t)) }
    ensures seats { IfOk result (λ t. IsFoldedTimetable (issued t) (seats t)) }
    ensures fault { IfErr result (λ e. TellsFault e (planned new_book image.now)) }
{
    let mut draft = new_draft(heap)?;
    fill(&mut draft, image)?;
    Ok(draft.issue())
}
