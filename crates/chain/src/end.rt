// Ends.
ghost use Rattle.std.specs.Prelude.{◌<◌};

use lines::line::Side;

// One of the 512 ends of a side.
#[derive(Clone, Copy)]
pub struct End {
    pub side: Side,
    pub number: u16,
    ghost inside: { number < 512 },
}
