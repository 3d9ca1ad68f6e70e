// A walk from partner to partner, alternately at left and at right ends, which puts partners into different halves.

use lines::line::Side;

// Where a walk stands: a line, the side on which it goes on, and the half of the line.
#[derive(Clone, Copy)]
pub(crate) struct Walk {
    pub(crate) line: usize,
    pub(crate) side: Side,
    pub(crate) half: bool,
}
