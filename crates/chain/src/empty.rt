// The work space before the first line is coloured.
ghost use Rattle.std.specs.Prelude.{◌≡◌, ℕ, ◌<◌, IfOk, None, vec_len, slice_index_or};
ghost use Rattle.chain.specs.Slots.{line_in};
ghost use Rattle.chain.specs.Colourings.{no_slots, Empty};

use crate::colour::Colour;
use crate::colouring::Colouring;
use crate::slots::Slots;
use std::alloc::{AllocError, Global};

// No colour for any of 1,024 lines. Tables of two types: see `zeros` of the crate `lines`.
fn no_colours(heap: Global) -> Result<Vec<Option<Colour>>, AllocError>
    ensures { IfOk result (λ v. (vec_len v ≡ 1024) × ((k : ℕ) → slice_index_or v.items k None ≡ None)) }
{
    let colours = vec![in heap; None; 1024]?;
    Ok(colours)
}

// No line has a colour at any of the 512 ends of either side.
fn no_lines(heap: Global) -> Result<Vec<Slots>, AllocError>
    ensures { IfOk result (λ v. (vec_len v ≡ 1024) × ((k a : ℕ) → k < 1024 → a < 64 → line_in (slice_index_or v.items k no_slots) a ≡ None)) }
{
    let empty = Slots::new();
    let slots = vec![in heap; empty; 1024]?;
    Ok(slots)
}

impl Colouring {
    // The work space with no line in it.
    pub(crate) fn new(heap: Global) -> Result<Colouring, AllocError>
        ensures { IfOk result Empty }
    {
        let colours = no_colours(heap)?;
        let slots = no_lines(heap)?;
        Ok(Colouring { colours, slots })
    }
}
