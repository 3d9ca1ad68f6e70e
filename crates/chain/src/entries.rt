// What stands at an end: reading and writing the work space at one place.
ghost use Rattle.std.specs.Prelude.{◌≡◌, ◌<◌, length, Some, None, MatchOption};
ghost use Rattle.lines.specs.Lines.{ends};
ghost use Rattle.chain.specs.Colourings.{place_of, slots_at, Stands, Consistent, FreeAt, Found, Written, Vacated};

use crate::colour::Colour;
use crate::colouring::Colouring;
use crate::end::End;
use crate::slots::Slots;
use lines::bounded::Bounded;
use lines::line::Side;

impl End {
    // The place of the end in the work space.
    fn place(self) -> usize
        ensures value { result ≡ place_of self.side self.number }
        ensures bound { result < 1024 }
    {
        match self.side {
            Side::Left => usize::from(self.number),
            Side::Right => 512 + usize::from(self.number),
        }
    }
}

// The end of the line k on a side. A number is within its lines by a clause, where it is used: alone it says nothing.
#[tactic(auto, using(crate::proofs::Laws::standing))]
pub(crate) fn end_of(bounded: Bounded<'_>, k: usize, side: Side) -> End
    requires { k < length bounded.lines.now }
    ensures side { result.side ≡ side }
    ensures stands { Stands (ends bounded.entry.lines.now) k result }
{
    let number = bounded.lines[k].end(side);
    End { side, number }
}

impl Colouring {
    // Which line has which colour at the end.
    pub(crate) fn at(&self, end: End) -> &Slots
        ensures { result.now ≡ slots_at self.now end.side end.number }
    {
        &self.slots[end.place()]
    }

    // The line that has the colour at the end.
    #[tactic(auto, using(crate::proofs::Laws::found))]
    pub(crate) fn find(&self, bounded: Bounded<'_>, end: End, colour: Colour) -> Option<usize>
        requires { Consistent (ends bounded.lines.now) self.now }
        ensures { MatchOption result
            (FreeAt (ends bounded.entry.lines.now) self.now end colour)
            (λ k. Found bounded.entry.lines.now self.now end colour k) }
    {
        self.at(end).line(colour)
    }

    // Notes that the line k has the colour at the end.
    pub(crate) fn occupy(&mut self, end: End, colour: Colour, k: usize)
        requires { k < 1024 }
        ensures { Written self.old self.new end colour (Some k) }
    {
        let slots = &mut self.slots[end.place()];
        slots.insert(colour, k);
    }

    // Notes that no line has the colour at the end.
    pub(crate) fn release(&mut self, end: End, colour: Colour)
        ensures { Written self.old self.new end colour None }
    {
        let slots = &mut self.slots[end.place()];
        slots.remove(colour);
    }

    // Notes that no line has a colour at the end.
    pub(crate) fn vacate(&mut self, end: End)
        ensures { Vacated self.old self.new end }
    {
        let slots = &mut self.slots[end.place()];
        slots.clear();
    }
}
