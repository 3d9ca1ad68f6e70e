// A line loses its colour or gets one, and two colours change places along a path.
ghost use Rattle.std.specs.Prelude.{◌≡◌, ◌<◌, length, Some, None, MatchOption};
ghost use Rattle.lines.specs.Lines.{ends};
ghost use Rattle.chain.specs.Colourings.{colour_at, Consistent, Bare, FreeAt, FreeFor, Stored, Repainted, Exchanged, Held, LiftedAt, NoneAt, Stepped, Ended};

use crate::colour::Colour;
use crate::colouring::Colouring;
use crate::end::End;
use crate::entries::end_of;
use lines::bounded::Bounded;
use lines::line::Side;

// A line in hand, while two colours change places along a path: it has lost its old colour and is to get the new one.
// The path came to it at its near end, where the new colour is free; at its far end another line may have that colour.
#[derive(Clone, Copy)]
pub(crate) struct InHand {
    line: usize,
    near: End,
    far: End,
    old: Colour,
    new: Colour,
}

impl Colouring {
    // Writes the colour of the line k, or none.
    pub(crate) fn paint(&mut self, k: usize, colour: Option<Colour>)
        requires { k < 1024 }
        ensures { Stored self.old self.new k colour }
    {
        self.colours[k] = colour;
    }

    // Takes the colour of the line k away.
    #[tactic(auto, using(crate::proofs::Laws::lifting))]
    fn lift(&mut self, bounded: Bounded<'_>, k: usize, colour: Colour)
        requires consistent { Consistent (ends bounded.lines.now) self.old }
        requires within { k < length bounded.lines.now }
        requires has { colour_at self.old k ≡ Some colour.number }
        ensures consistent { Consistent (ends bounded.entry.lines.now) self.new }
        ensures repainted { Repainted self.old self.new k None }
        ensures freed { FreeFor (ends bounded.entry.lines.now) self.new k colour }
    {
        let left = end_of(bounded, k, Side::Left);
        let right = end_of(bounded, k, Side::Right);
        self.release(left, colour);
        self.release(right, colour);
        self.paint(k, None);
    }

    // Gives the line k, which has no colour, one that is free at both of its ends.
    #[tactic(auto, using(crate::proofs::Laws::laying))]
    pub(crate) fn lay(&mut self, bounded: Bounded<'_>, k: usize, colour: Colour)
        requires consistent { Consistent (ends bounded.lines.now) self.old }
        requires within { k < length bounded.lines.now }
        requires bare { Bare self.old k }
        requires free { FreeFor (ends bounded.lines.now) self.old k colour }
        ensures consistent { Consistent (ends bounded.entry.lines.now) self.new }
        ensures repainted { Repainted self.old self.new k (Some colour) }
    {
        let left = end_of(bounded, k, Side::Left);
        let right = end_of(bounded, k, Side::Right);
        self.occupy(left, colour, k);
        self.occupy(right, colour, k);
        self.paint(k, Some(colour));
    }

    // Takes the colour away from the line that has it at the end, and tells which that was, if any.
    fn lift_at(&mut self, bounded: Bounded<'_>, end: End, colour: Colour) -> Option<usize>
        requires { Consistent (ends bounded.lines.now) self.old }
        ensures consistent { Consistent (ends bounded.entry.lines.now) self.new }
        ensures lifted { MatchOption result
            (NoneAt bounded.entry.lines.now self.old self.new end colour)
            (λ k. LiftedAt bounded.entry.lines.now self.old self.new end colour k) }
    {
        let line = self.find(bounded, end, colour)?;
        self.lift(bounded, line, colour);
        Some(line)
    }

    // The line in hand gets its new colour. Where another line has that colour at the far end, that one loses it first and
    // is in hand next.
    #[tactic(auto, using(crate::proofs::Laws::stepping))]
    fn step(&mut self, bounded: Bounded<'_>, hand: InHand) -> Option<InHand>
        requires consistent { Consistent (ends bounded.lines.now) self.old }
        requires held { Held bounded.lines.now self.old hand }
        ensures consistent { Consistent (ends bounded.entry.lines.now) self.new }
        ensures stepped { MatchOption result
            (Ended bounded.entry.lines.now self.old self.new hand)
            (λ next. Stepped bounded.entry.lines.now self.old self.new hand next) }
    {
        let next = self.lift_at(bounded, hand.far, hand.new);
        self.lay(bounded, hand.line, hand.new);
        let line = next?;
        let far = end_of(bounded, line, hand.near.side);
        Some(InHand {
            line,
            near: hand.far,
            far,
            old: hand.new,
            new: hand.old,
        })
    }

    // Exchanges a and b along the path of these colours that begins at the end, so that a is free there.
    #[tactic(auto, using(crate::proofs::Laws::exchanging))]
    pub(crate) fn swap(&mut self, bounded: Bounded<'_>, end: End, a: Colour, b: Colour)
        requires consistent { Consistent (ends bounded.lines.now) self.old }
        requires free { FreeAt (ends bounded.lines.now) self.old end b }
        ensures consistent { Consistent (ends bounded.entry.lines.now) self.new }
        ensures exchanged { Exchanged (ends bounded.entry.lines.now) self.old self.new end a b }
    {
        if let Some(line) = self.lift_at(bounded, end, a) {
            let far = end_of(bounded, line, end.side.opposite());
            let mut hand = InHand {
                line,
                near: end,
                far,
                old: a,
                new: b,
            };
            while let Some(next) = self.step(bounded, hand) {
                hand = next;
            }
        }
    }
}
