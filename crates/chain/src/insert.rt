// The lines get their colours one at a time. At the end these are written into the lines, and the work space is
// emptied.
ghost use Rattle.std.specs.Prelude.{◌≡◌, ◌+◌, ◌<◌, ◌≤◌, length, IfSome, IfOk, OnErr, OnOk};
ghost use Rattle.lines.specs.Lines.{ends, Inside};
ghost use Rattle.lines.specs.Arrangers.{Arranged};
ghost use Rattle.lines.specs.declared.line.Side.TheVariants.{Left, Right};
ghost use Rattle.chain.specs.Colourings.{Empty, Consistent, Stands, Bare, FreeBelow, Shared, Partly, Crowded, Copied};

use crate::colour::{Colour, NoColour};
use crate::colouring::Colouring;
use crate::end::End;
use crate::entries::end_of;
use crate::task::Task;
use lines::bounded::Bounded;
use lines::line::{Line, Side};

impl Colouring {
    // One of the colours of the task that no line has at the end, where the line k stands without a colour.
    #[tactic(auto, using(crate::proofs::Crowds::choosing))]
    fn free_colour(&self, task: Task<'_>, end: End, k: usize) -> Result<Colour, NoColour>
        requires consistent { Consistent (ends task.bounded.lines.now) self.now }
        requires within { k < length task.bounded.lines.now }
        requires bare { Bare self.now k }
        requires stands { Stands (ends task.bounded.lines.now) k end }
        ensures free { IfOk result (FreeBelow task.entry.count (ends task.entry.bounded.lines.now) self.now end) }
        ensures crowded { OnErr result (Crowded task.entry.count (ends task.entry.bounded.lines.now)) }
    {
        let palette = self.at(end).palette;
        palette.free_below(task.count).ok_or(NoColour)
    }

    // One of the colours of the task that is free at both ends of the line k, where the palettes show one.
    fn shared_colour(&self, task: Task<'_>, left: End, right: End, k: usize) -> Option<Colour>
        requires consistent { Consistent (ends task.bounded.lines.now) self.now }
        requires left { left.side ≡ Left }
        requires right { right.side ≡ Right }
        requires left_stands { Stands (ends task.bounded.lines.now) k left }
        requires right_stands { Stands (ends task.bounded.lines.now) k right }
        ensures { IfSome result (λ a. Shared (ends task.entry.bounded.lines.now) self.now k task.entry.count a) }
    {
        let lefts = self.at(left).palette;
        let rights = self.at(right).palette;
        lefts.union(rights).free_below(task.count)
    }

    // Colours the line i, the first that has no colour, unless some end is crowded.
    #[tactic(auto, using(crate::proofs::Laws::inserting))]
    fn insert(&mut self, task: Task<'_>, i: usize) -> Result<(), NoColour>
        requires consistent { Consistent (ends task.bounded.lines.now) self.old }
        requires within { i < length task.bounded.lines.now }
        requires partly { Partly task.count i self.old }
        ensures consistent { Consistent (ends task.entry.bounded.lines.now) self.new }
        ensures partly { OnOk result (Partly task.entry.count (i + 1) self.new) }
        ensures crowded { OnErr result (Crowded task.entry.count (ends task.entry.bounded.lines.now)) }
    {
        let left = end_of(task.bounded, i, Side::Left);
        let right = end_of(task.bounded, i, Side::Right);
        if let Some(a) = self.shared_colour(task, left, right, i) {
            self.lay(task.bounded, i, a);
        } else {
            let a = self.free_colour(task, left, i)?;
            let b = self.free_colour(task, right, i)?;
            self.swap(task.bounded, right, a, b);
            self.lay(task.bounded, i, a);
        }
        Ok(())
    }

    // Colours all lines, or stops at the first that finds no colour. An index is the number by which the work space knows
    // a line.
    #[tactic(auto, using(crate::proofs::Laws::starting))]
    fn colour_all(&mut self, task: Task<'_>) -> Result<(), NoColour>
        requires { Empty self.old }
        ensures consistent { Consistent (ends task.entry.bounded.lines.now) self.new }
        ensures partly { OnOk result (Partly task.entry.count (length task.entry.bounded.lines.now) self.new) }
        ensures crowded { OnErr result (Crowded task.entry.count (ends task.entry.bounded.lines.now)) }
    {
        for i in 0..task.bounded.lines.len() {
            self.insert(task, i)?;
        }
        Ok(())
    }

    // Writes the colours into the lines. They are read by number: of lines written through a `zip` nothing would be
    // known.
    fn write(&self, lines: &mut [Line])
        requires { length lines.old ≤ 1024 }
        ensures ends { ends lines.new ≡ ends lines.old }
        ensures copied { Copied self.now (length lines.old) lines.new }
    {
        for (k, line) in lines.iter_mut().enumerate() {
            if let Some(colour) = self.colours[k] {
                line.colour = colour.number;
            }
        }
    }

    // Takes the colours of all lines away, by their numbers.
    #[tactic(auto, using(crate::proofs::Moving::clearing))]
    fn clear(&mut self, bounded: Bounded<'_>)
        requires { Consistent (ends bounded.lines.now) self.old }
        ensures { Empty self.new }
    {
        for k in 0..bounded.lines.len() {
            self.vacate(end_of(bounded, k, Side::Left));
            self.vacate(end_of(bounded, k, Side::Right));
            self.paint(k, None);
        }
    }

    // Gives the lines a proper edge colouring with c colours, or leaves them as they are where an end is crowded.
    #[tactic(auto, using(crate::proofs::Moving::arranged))]
    pub(crate) fn colour(&mut self, lines: &mut [Line], c: u8) -> Result<(), NoColour>
        requires few { length lines.old ≤ 1024 }
        requires inside { Inside (ends lines.old) }
        requires low { c ≤ 64 }
        requires empty { Empty self.old }
        ensures arranged { OnOk result (Arranged c lines.old lines.new) }
        ensures unchanged { OnErr result (lines.new ≡ lines.old) }
        ensures crowded { OnErr result (Crowded c (ends lines.old)) }
        ensures empty { Empty self.new }
    {
        let bounded = Bounded { lines: &*lines };
        let coloured = self.colour_all(Task { bounded, count: c });
        if coloured.is_ok() {
            self.write(lines);
        }
        self.clear(Bounded { lines: &*lines });
        coloured
    }
}
