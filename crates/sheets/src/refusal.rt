// Why no sheet is written. specs/Refusals.antt has the numbers.
ghost use Rattle.std.specs.Prelude.{◌≡◌};
ghost use Rattle.sheets.specs.Refusals.{sheet_refusal};

// Why the sheet of a round is not written.
#[derive(Clone, Copy, PartialEq, Eq, Debug)]
pub enum SheetRefusal {
    // the round is not below R
    Round,
    // the sheet is longer than the buffer
    Buffer,
}

impl SheetRefusal {
    // The number that docs/REFUSALS.md gives the refusal.
    pub fn number(self) -> u8
        ensures { result ≡ (sheet_refusal self).number }
    {
        match self {
            SheetRefusal::Round => 13,
            SheetRefusal::Buffer => 14,
        }
    }
}
