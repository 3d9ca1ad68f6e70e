// Faults and refusals as text.
ghost use Rattle.std.specs.Prelude.{Some};
ghost use Rattle.image.specs.Faults.{image_fault, fault_words, fault_text};

use crate::refusal::{ImageRefusal, Layer};
use crossbar::digits::{FiveDigits, TwoDigits};
use std::fmt;

// What is shown of a fault: its number in two digits, the letter of its layer, and its cell in five digits.
#[derive(Clone, Copy)]
pub struct FaultText {
    pub number: u8,
    pub layer: Layer,
    pub cell: u16,
}

impl fmt::Display for FaultText {
    ghost output = { λ t. Some (fault_words t.number t.layer t.cell) };

    fn fmt<W: fmt::Write>(&self, f: &mut fmt::Formatter<W>) -> fmt::Result {
        let number = TwoDigits(self.number);
        let layer = self.layer.letter();
        let cell = FiveDigits(self.cell);
        write!(f, "refused {number} {layer} {cell}")
    }
}

impl fmt::Display for ImageRefusal {
    ghost output = { λ e. Some (fault_text (image_fault e)) };

    fn fmt<W: fmt::Write>(&self, f: &mut fmt::Formatter<W>) -> fmt::Result {
        let text = FaultText {
            number: self.number(),
            layer: self.layer(),
            cell: self.cell(),
        };
        write!(f, "{text}")
    }
}
