// Refusals as text.
ghost use Rattle.std.specs.Prelude.{Some};
ghost use Rattle.crossbar.specs.Text.{refusal_text};
ghost use Rattle.sheets.specs.Refusals.{sheet_refusal};

use crate::refusal::SheetRefusal;
use crossbar::digits::TwoDigits;
use std::fmt;

// The number in two digits.
impl fmt::Display for SheetRefusal {
    ghost output = { λ e. Some (refusal_text (sheet_refusal e)) };

    fn fmt<W: fmt::Write>(&self, f: &mut fmt::Formatter<W>) -> fmt::Result {
        write!(f, "refused {}", TwoDigits(self.number()))
    }
}
