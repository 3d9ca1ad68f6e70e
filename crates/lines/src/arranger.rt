// The interface of an arranger. Whoever uses one relies on what stands here and on nothing else.
ghost use Rattle.std.specs.Prelude.{◌≡◌, ℕ, ◌^◌, ◌≤◌, Bool, true, length};
ghost use Rattle.lines.specs.Refusals.{told, refusal_due};
ghost use Rattle.lines.specs.Arrangers.{Arranges, grown, meter_after};

use crate::line::Line;
use crate::refusal::ArrangeRefusal;

// An arranger colours lines. Its meaning is the fixed set of counts of colours that it serves, which belongs to the
// type, and its meter, which counts the lines that it has arranged. Each arranger tests the lines, colours them and grows
// its meter itself: a step that colours tested lines would ask something of its caller, which no public function does.
pub trait Arranger {
    // whether a count of colours is served
    ghost served: { ℕ → Bool };

    // what the meter shows
    ghost shows: { Self → ℕ };

    // Whether a count of colours is served.
    fn serves(&self, c: u8) -> bool
        ensures { result ≡ served c };

    // What the meter shows.
    fn meter(&self) -> u32
        ensures { result ≡ shows self.now };

    // Colours the lines properly with c colours: no two that meet at an end of either side have the same. A refusal
    // changes neither lines nor meter.
    fn arrange(&mut self, lines: &mut [Line], c: u8) -> Result<(), ArrangeRefusal>
        ensures refused { told result ≡ refusal_due (served c) c lines.old }
        ensures lines { Arranges result c lines.old lines.new }
        ensures meter { shows self.new ≡ meter_after result (length lines.old) (shows self.old) };

    // the counts served lie within 1 to 64
    ghost within: { (c : ℕ) → served c ≡ true → (1 ≤ c) × (c ≤ 64) };

    // 1, 2, 4, 8, 16, 32 and 64 are served
    ghost powers: { (k : ℕ) → k ≤ 6 → served (2 ^ k) ≡ true };

    // the meter never passes the number at which it stops
    ghost stops: { (a : Self) → shows a ≤ 4294967295 };
}

// What a meter shows after some lines more: it stops at 4,294,967,295.
pub fn add_lines(meter: u32, count: usize) -> u32
    ensures { result ≡ grown meter count }
{
    meter.saturating_add(u32::try_from(count).unwrap_or(u32::MAX))
}
