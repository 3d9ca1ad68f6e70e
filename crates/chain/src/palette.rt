// Which of the 64 colours are in use at an end.
ghost use Rattle.std.specs.Prelude.{◌≡◌, ℕ, ◌<◌, false, not, ◌&&◌, ◌||◌, ◌==◌};
ghost use Rattle.chain.specs.Palettes.{uses, Lowest, UnusedBelow};

use crate::colour::Colour;

// One bit for each colour: 1 where it is free, 0 where it is in use.
#[derive(Clone, Copy)]
pub struct Palette {
    pub free: u64,
}

impl Palette {
    // All 64 colours are free.
    #[tactic(auto, using(crate::proofs::Bits::all_free))]
    pub(crate) fn new() -> Palette
        ensures { (a : ℕ) → a < 64 → uses result.free a ≡ false }
    {
        Palette { free: u64::MAX }
    }

    // Whether the colour is in use.
    pub(crate) fn has(self, colour: Colour) -> bool
        ensures { result ≡ uses self.free colour.number }
    {
        (self.free >> colour.number) % 2 == 0
    }

    // The colour is in use.
    #[tactic(auto, using(crate::proofs::Bits::uses_insert))]
    pub(crate) fn insert(self, colour: Colour) -> Palette
        ensures { (a : ℕ) → uses result.free a ≡ (a == colour.number || uses self.free a) }
    {
        Palette {
            free: self.free & !(1 << colour.number),
        }
    }

    // The colour is free again.
    #[tactic(auto, using(crate::proofs::Bits::uses_remove))]
    pub(crate) fn remove(self, colour: Colour) -> Palette
        ensures { (a : ℕ) → uses result.free a ≡ (not (a == colour.number) && uses self.free a) }
    {
        Palette {
            free: self.free | (1 << colour.number),
        }
    }

    // The lowest free colour, where one is free.
    #[tactic(auto, using(crate::proofs::Bits::lowest))]
    fn lowest_free(self) -> Option<Colour>
        ensures { Lowest self.free result }
    {
        let number = self.free.trailing_zeros() as u8;
        if number < 64 {
            Some(Colour { number })
        } else {
            None
        }
    }

    // A free colour below a count, where one of these is free.
    pub(crate) fn free_below(self, count: u8) -> Option<Colour>
        ensures { UnusedBelow self.free count result }
    {
        self.lowest_free().filter(|colour| colour.number < count)
    }

    // The palette in which only the colours that are free in both are free.
    #[tactic(auto, using(crate::proofs::Bits::uses_union))]
    pub(crate) fn union(self, other: Palette) -> Palette
        ensures { (a : ℕ) → uses result.free a ≡ (uses self.free a || uses other.free a) }
    {
        Palette {
            free: self.free & other.free,
        }
    }
}
