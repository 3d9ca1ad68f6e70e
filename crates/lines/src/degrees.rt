// The tests for the refusals 23 to 26, in their order.
ghost use Rattle.std.specs.Prelude.{◌≡◌, ℕ, ◌+◌, ◌<◌, ◌≤◌, ltb, length, IfOk, if◌then◌else◌, vec_len, slice_index, slice_set};
ghost use Rattle.lines.specs.Lines.{ends};
ghost use Rattle.lines.specs.Refusals.{told, refusal_due};
ghost use Rattle.lines.specs.Degrees.{Zero, Counts, lower_of, crowds};
ghost use Rattle.lines.specs.declared.line.Side.TheVariants.{Left, Right};

use crate::bounded::Bounded;
use crate::line::{Line, Side};
use crate::refusal::ArrangeRefusal;
use std::alloc::{AllocError, Global};

// Room to count the lines at each of the 512 ends of either side. It holds zeros between calls. Both sides are counted
// in one pass: with one table, for one side after the other, arrangements with few colours took up to a tenth longer.
#[derive(Drop)]
pub struct Degrees {
    left: Vec<u16>,
    right: Vec<u16>,
    ghost left_room: { vec_len left ≡ 512 },
    ghost right_room: { vec_len right ≡ 512 },
    ghost left_zero: { (v : ℕ) → slice_index left.items v ≡ 0 },
    ghost right_zero: { (v : ℕ) → slice_index right.items v ≡ 0 },
}

// The lowest crowded end of each side.
#[derive(Clone, Copy)]
struct Crowds {
    left: Option<u16>,
    right: Option<u16>,
}

impl Degrees {
    // Room for the counts, all zero.
    pub fn new(heap: Global) -> Result<Degrees, AllocError>
        ensures { IfOk result (λ d. Zero d.left.items × Zero d.right.items) }
    {
        let left = zeros(heap, 512)?;
        let right = zeros(heap, 512)?;
        Ok(Degrees { left, right })
    }

    // The first refusal that is due, where one is; `served` says whether the arranger serves c colours, which is tested
    // first.
    pub fn check(&mut self, lines: &[Line], served: bool, c: u8) -> Result<(), ArrangeRefusal>
        ensures { told result ≡ refusal_due served c lines.now }
    {
        if !served {
            return Err(ArrangeRefusal::NotServed);
        }
        let bounded = Bounded::new(lines)?;
        let crowds = self.crowds(bounded, c);
        if let Some(end) = crowds.left {
            return Err(ArrangeRefusal::Crowded(Side::Left, end));
        }
        if let Some(end) = crowds.right {
            return Err(ArrangeRefusal::Crowded(Side::Right, end));
        }
        Ok(())
    }

    // The lowest end of each side in which more than c lines stand.
    fn crowds(&mut self, bounded: Bounded<'_>, c: u8) -> Crowds
        ensures { result ≡ crowds c (ends bounded.entry.lines.now) }
    {
        let left = self.left.as_mut_slice();
        let right = self.right.as_mut_slice();
        let crowds = count(bounded, c, left, right);
        uncount(bounded, left, right);
        crowds
    }
}

// So many zeros. No function makes tables of any type: they are made by clones, which need not equal their source.
fn zeros(heap: Global, count: usize) -> Result<Vec<u16>, AllocError>
    ensures { IfOk result (λ v. (vec_len v ≡ count) × Zero v.items) }
{
    Ok(vec![in heap; 0u16; count]?)
}

// The lower of an end and the lowest so far.
fn lower(lowest: Option<u16>, end: u16) -> Option<u16>
    ensures { result ≡ lower_of lowest end }
{
    Some(lowest.map_or(end, |low| low.min(end)))
}

// Counts a line at an end, and tells the lowest end so far in which more than c lines stand.
fn add(counts: &mut [u16], end: u16, c: u8, lowest: Option<u16>) -> Option<u16>
    requires end { end < length counts.old }
    requires few { slice_index counts.old end ≤ 1024 }
    ensures counts { counts.new ≡ slice_set counts.old end (slice_index counts.old end + 1) }
    ensures lowest { result ≡ (if ltb c (slice_index counts.old end + 1) then lower_of lowest end else lowest) }
{
    let degree = counts[usize::from(end)] + 1;
    counts[usize::from(end)] = degree;
    if degree > u16::from(c) {
        lower(lowest, end)
    } else {
        lowest
    }
}

// Counts the lines at each end, and tells the lowest end of each side in which more than c of them stand.
fn count(bounded: Bounded<'_>, c: u8, left: &mut [u16], right: &mut [u16]) -> Crowds
    requires left_room { length left.old ≡ 512 }
    requires right_room { length right.old ≡ 512 }
    requires left_zero { Zero left.old }
    requires right_zero { Zero right.old }
    ensures left { Counts Left (ends bounded.entry.lines.now) left.new }
    ensures right { Counts Right (ends bounded.entry.lines.now) right.new }
    ensures crowds { result ≡ crowds c (ends bounded.entry.lines.now) }
{
    let mut lowest_left = None;
    let mut lowest_right = None;
    for line in bounded.lines {
        lowest_left = add(left, line.left, c, lowest_left);
        lowest_right = add(right, line.right, c, lowest_right);
    }
    Crowds {
        left: lowest_left,
        right: lowest_right,
    }
}

// Empties the counts again, at the ends of the lines.
fn uncount(bounded: Bounded<'_>, left: &mut [u16], right: &mut [u16])
    requires left_room { length left.old ≡ 512 }
    requires right_room { length right.old ≡ 512 }
    requires left { Counts Left (ends bounded.lines.now) left.old }
    requires right { Counts Right (ends bounded.lines.now) right.old }
    ensures left { Zero left.new }
    ensures right { Zero right.new }
{
    for line in bounded.lines {
        left[line.left as usize] = 0;
        right[line.right as usize] = 0;
    }
}
