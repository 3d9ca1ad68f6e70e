// Lines that an arranger may be handed.
ghost use Rattle.std.specs.Prelude.{◌≡◌, ◌≤◌, ◌||◌, length, nat_lt, IfOk};
ghost use Rattle.lines.specs.Lines.{ends, Inside};
ghost use Rattle.lines.specs.Refusals.{told, end_above, bounds_refusal};

use crate::line::Line;
use crate::refusal::ArrangeRefusal;

// At most 1,024 lines, none with an end above 511. Functions that write the lines take them bare: whoever holds them by
// `&mut` would owe these facts at every write.
#[derive(Clone, Copy)]
pub struct Bounded<'a> {
    pub lines: &'a [Line],
    pub ghost few: { length lines.now ≤ 1024 },
    pub ghost inside: { Inside (ends lines.now) },
}

impl<'a> Bounded<'a> {
    // The lines, where they are not too many and no end is too high.
    pub fn new(lines: &'a [Line]) -> Result<Bounded<'a>, ArrangeRefusal>
        ensures refused { told result ≡ bounds_refusal lines.now }
        ensures lines { IfOk result (λ b. b.lines.now ≡ lines.now) }
    {
        if lines.len() > 1024 {
            return Err(ArrangeRefusal::TooManyLines);
        }
        if has_end_above(lines) {
            return Err(ArrangeRefusal::EndAbove);
        }
        Ok(Bounded { lines })
    }
}

// Whether an end of the line is above 511.
fn is_above(line: Line) -> bool
    ensures { result ≡ (nat_lt 511 line.left || nat_lt 511 line.right) }
{
    line.left > 511 || line.right > 511
}

// Whether some end is above 511. For lines with no such end, a loop that always goes on to the last one is quicker than one
// that may end early.
pub fn has_end_above(lines: &[Line]) -> bool
    ensures { result ≡ end_above lines.now }
{
    let mut above = false;
    for line in lines {
        above |= is_above(*line);
    }
    above
}
