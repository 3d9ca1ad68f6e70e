// Halves of lines, such that partners are in different ones.
ghost use Rattle.std.specs.Prelude.{◌≡◌, ℕ, ◌+◌, ◌<◌, ◌≤◌, false, length, Some, slice_index};
ghost use Rattle.lines.specs.declared.line.Side.TheVariants.{Left, Right};
ghost use Rattle.lines.specs.Lines.{other, ends, colours};
ghost use Rattle.euler.specs.Pairs.{at, partner};
ghost use Rattle.euler.specs.Walks.{Symmetric, Settled, Begun, waiting, PlacedBefore, Steps, bit};

use crate::pairs::Partners;
use crate::walk::Walk;
use lines::line::{Line, Side};

// Lines by their numbers: the half of each, where it is in one already, and its partners.
#[derive(Drop)]
pub(crate) struct Placement<'a> {
    pub(crate) halves: &'a mut [Option<bool>],
    pub(crate) partners: &'a [Partners],
    ghost matched: { length partners.now ≡ length halves.now },
    ghost symmetric: { Symmetric (length partners.now) (partner partners.now) },
}

impl Placement<'_> {
    // Puts the partner of the line at which the walk stands into the other half, where it is in none yet.
    fn step(&mut self, walk: Walk) -> Option<Walk>
        requires { walk.line < length self.old.halves.now }
        ensures partners { self.new.partners.now ≡ self.old.partners.now }
        ensures steps { Steps result (partner self.old.partners.now walk.side walk.line) walk self.old.halves.now self.new.halves.now }
    {
        let line = self.partners[walk.line].on(walk.side)? as usize;
        let taken = self.halves[line];
        if taken.is_some() {
            return None;
        }
        let half = !walk.half;
        self.halves[line] = Some(half);
        Some(Walk {
            line,
            side: walk.side.opposite(),
            half,
        })
    }

    // Walks from line x, which is in the half false, first to its partner on the side given.
    fn walk(&mut self, x: usize, first: Side)
        requires within { x < length self.old.halves.now }
        requires begun { Begun x (partner self.old.partners.now) self.old.halves.now }
        ensures partners { self.new.partners.now ≡ self.old.partners.now }
        ensures begun { Begun x (partner self.old.partners.now) self.new.halves.now }
        ensures first { waiting (at self.new.halves.now) (partner self.old.partners.now first x) ≡ 0 }
        ensures second { waiting (at self.new.halves.now) (partner self.old.partners.now (other first) x) ≤ waiting (at self.old.halves.now) (partner self.old.partners.now (other first) x) }
    {
        let mut walk = Walk {
            line: x,
            side: first,
            half: false,
        };
        while let Some(next) = self.step(walk) {
            walk = next;
        }
    }

    // Walks from line x, which is in the half false, both ways.
    fn walk_both_ways(&mut self, x: usize)
        requires within { x < length self.old.halves.now }
        requires begun { Begun x (partner self.old.partners.now) self.old.halves.now }
        ensures partners { self.new.partners.now ≡ self.old.partners.now }
        ensures begun { Begun x (partner self.old.partners.now) self.new.halves.now }
        ensures left { waiting (at self.new.halves.now) (partner self.old.partners.now Left x) ≡ 0 }
        ensures right { waiting (at self.new.halves.now) (partner self.old.partners.now Right x) ≡ 0 }
    {
        self.walk(x, Side::Left);
        self.walk(x, Side::Right);
    }

    // Puts line x, and all lines that hang together with it, into halves.
    fn place(&mut self, x: usize)
        requires within { x < length self.old.halves.now }
        requires settled { Settled (partner self.old.partners.now) (at self.old.halves.now) }
        requires before { PlacedBefore x self.old.halves.now }
        ensures partners { self.new.partners.now ≡ self.old.partners.now }
        ensures settled { Settled (partner self.old.partners.now) (at self.new.halves.now) }
        ensures before { PlacedBefore (x + 1) self.new.halves.now }
    {
        let half = self.halves[x];
        if half.is_none() {
            self.halves[x] = Some(false);
            self.walk_both_ways(x);
        }
    }

    // Puts every line into a half, partners into different ones. The lines are taken by number, since a walk from one
    // writes the places of others.
    pub(crate) fn place_all(&mut self)
        ensures partners { self.new.partners.now ≡ self.old.partners.now }
        ensures settled { Settled (partner self.old.partners.now) (at self.new.halves.now) }
        ensures placed { PlacedBefore (length self.old.halves.now) self.new.halves.now }
    {
        self.halves.fill(None);
        for x in 0..self.halves.len() {
            self.place(x);
        }
    }

    // Gives each line the colour of its half, 0 or 1. Of lines written through a `zip` nothing would be known.
    pub(crate) fn tell(&self, lines: &mut [Line])
        requires { length self.now.halves.now ≡ length lines.old }
        ensures ends { ends lines.new ≡ ends lines.old }
        ensures colours { (k : ℕ) → k < length lines.old → slice_index (colours lines.new) k ≡ bit (at self.now.halves.now k) }
    {
        for (k, line) in lines.iter_mut().enumerate() {
            line.colour = colour_of(self.halves[k]);
        }
    }
}

// The colour that tells a half.
fn colour_of(half: Option<bool>) -> u8
    ensures { result ≡ bit half }
{
    match half {
        Some(true) => 1,
        Some(false) | None => 0,
    }
}
