// Pairs of lines at the ends of either side: at each end at most one line stays without a partner.
ghost use Rattle.std.specs.Prelude.{◌≡◌, ℕ, ◌+◌, ◌<◌, ◌≤◌, None, length, IfOk, vec_len, slice_index_or};
ghost use Rattle.lines.specs.declared.line.Side.TheVariants.{Left, Right};
ghost use Rattle.lines.specs.Lines.{ends, end_at, end_of, other};
ghost use Rattle.euler.specs.Pairs.{at, Empty, Below, partner_on, with_partner, partner, singles_after, partners_after, Paired, SinglesAt};

use lines::bounded::Bounded;
use lines::line::{Line, Side};
use std::alloc::{AllocError, Global};

// The partners of a line at its two ends.
#[derive(Clone, Copy, Default)]
pub(crate) struct Partners {
    pub(crate) left: Option<u16>,
    pub(crate) right: Option<u16>,
}

impl Partners {
    // The partner at the end on a side.
    pub(crate) fn on(self, side: Side) -> Option<u16>
        ensures { result ≡ partner_on side self }
    {
        match side {
            Side::Left => self.left,
            Side::Right => self.right,
        }
    }

    // Changes the partner at the end on a side.
    fn set(&mut self, side: Side, partner: Option<u16>)
        ensures { self.new ≡ with_partner side partner self.old }
    {
        match side {
            Side::Left => self.left = partner,
            Side::Right => self.right = partner,
        }
    }
}

// The line at each of the 512 ends of a side that has no partner yet. No line is single between calls.
#[derive(Drop)]
pub(crate) struct Singles {
    pub(crate) table: Vec<Option<u16>>,
    ghost ends: { vec_len table ≡ 512 },
    ghost empty: { (v : ℕ) → slice_index_or table.items v None ≡ None },
}

impl Singles {
    // A table in which no line is single.
    pub(crate) fn new(heap: Global) -> Result<Singles, AllocError>
        ensures { IfOk result (λ s. Empty s.table.items) }
    {
        let table = vec![in heap; None; 512]?;
        Ok(Singles { table })
    }

    // Pairs the lines at the ends of both sides.
    #[tactic(auto, using(crate::proofs::Pairing::paired_still))]
    pub(crate) fn find_partners(&mut self, bounded: Bounded<'_>, partners: &mut [Partners])
        requires { length partners.old ≡ length bounded.lines.now }
        ensures left { Paired (length bounded.entry.lines.now) (end_at (ends bounded.entry.lines.now) Left) (partner partners.new Left) }
        ensures right { Paired (length bounded.entry.lines.now) (end_at (ends bounded.entry.lines.now) Right) (partner partners.new Right) }
    {
        let single = self.table.as_mut_slice();
        pair(bounded, Side::Left, single, partners);
        clear(bounded, Side::Left, single);
        pair(bounded, Side::Right, single, partners);
        clear(bounded, Side::Right, single);
    }
}

// The place of a line's end in a table of the ends of its side.
fn end_place(line: Line, side: Side) -> usize
    ensures { result ≡ end_of side line }
{
    usize::from(line.end(side))
}

// Line k comes to the end v of a side: it is the partner of the single line there, or is single itself from now on.
fn meet(single: &mut [Option<u16>], partners: &mut [Partners], side: Side, v: usize, k: usize)
    requires end { v < length single.old }
    requires line { k < length partners.old }
    requires few { length partners.old ≤ 1024 }
    requires below { Below (length partners.old) single.old }
    ensures single { single.new ≡ singles_after (at single.old v) single.old v k }
    ensures partners { partners.new ≡ partners_after side (at single.old v) partners.old k }
{
    match single[v] {
        None => {
            partners[k].set(side, None);
            single[v] = Some(k as u16);
        }
        Some(j) => {
            partners[k].set(side, Some(j));
            partners[usize::from(j)].set(side, Some(k as u16));
            single[v] = None;
        }
    }
}

// Pairs the lines at each end of the side.
fn pair(bounded: Bounded<'_>, side: Side, single: &mut [Option<u16>], partners: &mut [Partners])
    requires ends { length single.old ≡ 512 }
    requires room { length partners.old ≡ length bounded.lines.now }
    requires empty { Empty single.old }
    ensures paired { Paired (length bounded.entry.lines.now) (end_at (ends bounded.entry.lines.now) side) (partner partners.new side) }
    ensures others { (k : ℕ) → partner partners.new (other side) k ≡ partner partners.old (other side) k }
    ensures single { SinglesAt (length bounded.entry.lines.now) (end_at (ends bounded.entry.lines.now) side) single.new }
{
    for (k, line) in bounded.lines.iter().enumerate() {
        meet(single, partners, side, end_place(*line, side), k);
    }
}

// Forgets the single lines.
fn clear(bounded: Bounded<'_>, side: Side, single: &mut [Option<u16>])
    requires ends { length single.old ≡ 512 }
    requires single { SinglesAt (length bounded.lines.now) (end_at (ends bounded.lines.now) side) single.old }
    ensures { Empty single.new }
{
    for line in bounded.lines {
        single[line.end(side) as usize] = None;
    }
}
