// Refusals as text.
ghost use Rattle.std.specs.Prelude.{Some};
ghost use Rattle.crossbar.specs.Text.{refusal_text};
ghost use Rattle.image.specs.Faults.{fault_text};
ghost use Rattle.bookings.specs.Faults.{load_fault};
ghost use Rattle.bookings.specs.Refusals.{fit_refusal, booking_refusal, ticket_refusal};

use crate::refusal::{BookRefusal, FitRefusal, LoadRefusal, TicketRefusal};
use crossbar::digits::TwoDigits;
use image::text::FaultText;
use std::fmt;

// The number in two digits.
impl fmt::Display for FitRefusal {
    ghost output = { λ e. Some (refusal_text (fit_refusal e)) };

    fn fmt<W: fmt::Write>(&self, f: &mut fmt::Formatter<W>) -> fmt::Result {
        let number = TwoDigits(self.number());
        write!(f, "refused {number}")
    }
}

// The number in two digits, and the node where there is one.
impl fmt::Display for BookRefusal {
    ghost output = { λ e. Some (refusal_text (booking_refusal e)) };

    fn fmt<W: fmt::Write>(&self, f: &mut fmt::Formatter<W>) -> fmt::Result {
        let number = TwoDigits(self.number());
        match self.node() {
            Some(v) => write!(f, "refused {number} node {v}"),
            None => write!(f, "refused {number}"),
        }
    }
}

// The number in two digits.
impl fmt::Display for TicketRefusal {
    ghost output = { λ e. Some (refusal_text (ticket_refusal e)) };

    fn fmt<W: fmt::Write>(&self, f: &mut fmt::Formatter<W>) -> fmt::Result {
        write!(f, "refused {}", TwoDigits(self.number()))
    }
}

impl fmt::Display for LoadRefusal {
    ghost output = { λ e. Some (fault_text (load_fault e)) };

    fn fmt<W: fmt::Write>(&self, f: &mut fmt::Formatter<W>) -> fmt::Result {
        let text = FaultText {
            number: self.number(),
            layer: self.layer(),
            cell: self.cell(),
        };
        write!(f, "{text}")
    }
}
