// Why an image gets no timetable. specs/Faults.antt has what is told of each case.
ghost use Rattle.std.specs.Prelude.{◌≡◌, Some};
ghost use Rattle.failure.specs.declared.Failure.TheVariants.{Refused};
ghost use Rattle.image.specs.Faults.{fault_text};
ghost use Rattle.bookings.specs.declared.refusal.LoadRefusal.TheVariants.{Image};
ghost use Rattle.printouts.specs.declared.refusal.PlanRefusal.TheVariants.{Fit, Load};
ghost use Rattle.printouts.specs.Faults.{plan_fault};

use bookings::refusal::{FitRefusal, LoadRefusal};
use failure::Failure;
use image::refusal::{ImageRefusal, Layer};
use image::text::FaultText;
use std::fmt;

// Why the transfers of an image get no rounds.
#[derive(Clone, Copy, PartialEq, Eq, Debug)]
pub(crate) enum PlanRefusal {
    // no book is fitted to m, n and R of the head
    Fit(FitRefusal),
    // the image is refused, or its transfers are not booked
    Load(LoadRefusal),
}

impl PlanRefusal {
    // The number that docs/REFUSALS.md gives the refusal.
    pub(crate) fn number(self) -> u8
        ensures { result ≡ (plan_fault self).refusal.number }
    {
        match self {
            PlanRefusal::Fit(refusal) => refusal.number(),
            PlanRefusal::Load(refusal) => refusal.number(),
        }
    }

    // The cell that the refusal is about; 0 is the head.
    pub(crate) fn cell(self) -> u16
        ensures { result ≡ (plan_fault self).cell }
    {
        match self {
            PlanRefusal::Fit(_) => 0,
            PlanRefusal::Load(refusal) => refusal.cell(),
        }
    }

    // The layer that refuses.
    pub(crate) fn layer(self) -> Layer
        ensures { result ≡ (plan_fault self).layer }
    {
        match self {
            PlanRefusal::Fit(_) => Layer::Fit,
            PlanRefusal::Load(refusal) => refusal.layer(),
        }
    }
}

impl fmt::Display for PlanRefusal {
    ghost output = { λ e. Some (fault_text (plan_fault e)) };

    fn fmt<W: fmt::Write>(&self, f: &mut fmt::Formatter<W>) -> fmt::Result {
        let text = FaultText {
            number: self.number(),
            layer: self.layer(),
            cell: self.cell(),
        };
        write!(f, "{text}")
    }
}

// These are written by hand, since derived ones would not tell which case they give.
impl From<ImageRefusal> for PlanRefusal {
    ghost from_gives = { λ e r. r ≡ Load (Image e) };

    fn from(e: ImageRefusal) -> PlanRefusal {
        PlanRefusal::Load(LoadRefusal::Image(e))
    }
}

impl From<FitRefusal> for PlanRefusal {
    ghost from_gives = { λ e r. r ≡ Fit e };

    fn from(e: FitRefusal) -> PlanRefusal {
        PlanRefusal::Fit(e)
    }
}

impl From<LoadRefusal> for PlanRefusal {
    ghost from_gives = { λ e r. r ≡ Load e };

    fn from(e: LoadRefusal) -> PlanRefusal {
        PlanRefusal::Load(e)
    }
}

// Why no timetable is handed out: the image is refused, or there is no memory.
pub(crate) type PlanError = Failure<PlanRefusal>;

impl From<PlanRefusal> for Failure<PlanRefusal> {
    ghost from_gives = { λ e r. r ≡ Refused e };

    fn from(e: PlanRefusal) -> Failure<PlanRefusal> {
        Failure::Refused(e)
    }
}
