// Colours for lines by splitting them in two, again and again, until no two lines of a part have a common end.
ghost use Rattle.std.specs.Prelude.{◌≡◌, ℕ, ◌+◌, ◌*◌, ◌<◌, ◌≤◌, length, filter, slice_index};
ghost use Rattle.lines.specs.Lines.{ends, colours, DegreesWithin, Inside};
ghost use Rattle.euler.specs.Spreads.{is_low, is_high, weave, Spread};

use crate::pile::Pile;
use crate::range::ColourRange;
use crate::split::Splitter;
use lines::line::Line;

// Gives every line the colour.
fn fill(lines: &mut [Line], colour: u8)
    ensures ends { ends lines.new ≡ ends lines.old }
    ensures colours { (k : ℕ) → k < length lines.old → slice_index (colours lines.new) k ≡ colour }
{
    for line in lines.iter_mut() {
        line.colour = colour;
    }
}

// Copies the lines of each half, in order, into a room, and tells what room is left.
#[tactic(auto, using(crate::proofs::Weaving::room_left))]
fn deal<'a>(
    lines: &[Line],
    room: &'a mut [Line],
) -> (&'a mut [Line], &'a mut [Line], &'a mut [Line])
    requires { 2 * length lines.now ≤ length room.old }
    ensures low { result.0.now ≡ filter is_low lines.now }
    ensures high { result.1.now ≡ filter is_high lines.now }
    ensures left { length result.2.now + 2 * length lines.now ≡ length room.old }
{
    let (low, rest) = room.split_at_mut(lines.len());
    let (high, rest) = rest.split_at_mut(lines.len());
    let mut low = Pile::new(low);
    let mut high = Pile::new(high);
    for line in lines {
        if line.colour == 0 {
            low.push(*line);
        } else {
            high.push(*line);
        }
    }
    (low.into_lines(), high.into_lines(), rest)
}

// Gives each line the colour that its copy in a half has got.
fn gather(lines: &mut [Line], low: &[Line], high: &[Line])
    requires low { length low.now ≡ length (filter is_low lines.old) }
    requires high { length high.now ≡ length (filter is_high lines.old) }
    ensures { lines.new ≡ weave lines.old low.now high.now }
{
    let mut low = low.iter();
    let mut high = high.iter();
    for line in lines.iter_mut() {
        let copy = if line.colour == 0 {
            low.next().unwrap()
        } else {
            high.next().unwrap()
        };
        line.colour = copy.colour;
    }
}

// Colours the lines with the colours of the range. Each half of the lines gets half of the colours.
pub(crate) fn spread(
    splitter: &mut Splitter,
    lines: &mut [Line],
    room: &mut [Line],
    range: ColourRange,
)
    requires few { length lines.old ≤ 1024 }
    requires inside { Inside (ends lines.old) }
    requires within { DegreesWithin range.count (ends lines.old) }
    requires room { 2 * length lines.old * range.splits ≤ length room.old }
    ensures ends { ends lines.new ≡ ends lines.old }
    ensures spread { Spread range.first range.count lines.new }
{
    match range.halves() {
        None => fill(lines, range.first),
        Some((lower, upper)) => {
            splitter.halve(lines);
            let (low, high, rest) = deal(lines, room);
            spread(splitter, low, rest, lower);
            spread(splitter, high, rest, upper);
            gather(lines, low, high);
        }
    }
}
