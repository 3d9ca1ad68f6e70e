// The work space of the chain arranger.
ghost use Rattle.std.specs.Prelude.{◌≡◌, vec_len};

use crate::colour::Colour;
use crate::slots::Slots;

// The colours of up to 1,024 lines, and which line has which colour at each of the 512 ends of a side. That these agree
// with the lines is a clause of each function: between the writes at the two ends of a line they do not.
#[derive(Drop)]
pub struct Colouring {
    // by line
    pub colours: Vec<Option<Colour>>,
    // by the place of the end
    pub slots: Vec<Slots>,
    ghost each_line: { vec_len colours ≡ 1024 },
    ghost each_end: { vec_len slots ≡ 1024 },
}
