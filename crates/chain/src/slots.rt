// Which line has which colour at an end.
ghost use Rattle.std.specs.Prelude.{◌≡◌, ℕ, ◌<◌, Some, None};
ghost use Rattle.chain.specs.Slots.{line_in, Refilled};

use crate::colour::Colour;
use crate::palette::Palette;

// The lines at an end: a slot for each colour. A slot is read only where the palette says that the colour is in use, so
// that only the palette ever has to be cleared.
#[derive(Clone, Copy)]
pub struct Slots {
    pub palette: Palette,
    pub lines: [u16; 64],
}

impl Slots {
    // No line has a colour.
    pub(crate) fn new() -> Slots
        ensures { (a : ℕ) → a < 64 → line_in result a ≡ None }
    {
        Slots {
            palette: Palette::new(),
            lines: [0; 64],
        }
    }

    // The line that has the colour.
    pub(crate) fn line(&self, colour: Colour) -> Option<usize>
        ensures { result ≡ line_in self.now colour.number }
    {
        if self.palette.has(colour) {
            Some(usize::from(self.lines[usize::from(colour.number)]))
        } else {
            None
        }
    }

    // Notes that the line k has the colour.
    pub(crate) fn insert(&mut self, colour: Colour, k: usize)
        requires { k < 1024 }
        ensures { Refilled self.old self.new colour.number (Some k) }
    {
        self.palette = self.palette.insert(colour);
        self.lines[usize::from(colour.number)] = k as u16;
    }

    // Notes that no line has the colour.
    pub(crate) fn remove(&mut self, colour: Colour)
        ensures { Refilled self.old self.new colour.number None }
    {
        self.palette = self.palette.remove(colour);
    }

    // Notes that no line has a colour.
    pub(crate) fn clear(&mut self)
        ensures { (a : ℕ) → a < 64 → line_in self.new a ≡ None }
    {
        self.palette = Palette::new();
    }
}
