// Colours, and the want of one.
ghost use Rattle.std.specs.Prelude.{◌<◌};

// One of the 64 colours.
#[derive(Clone, Copy)]
pub struct Colour {
    pub number: u8,
    ghost low: { number < 64 },
}

// A line finds no colour: all below the count are in use at one of its ends. Then some end is crowded.
#[derive(Clone, Copy)]
pub(crate) struct NoColour;
