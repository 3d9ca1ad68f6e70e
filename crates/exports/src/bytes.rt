// Lines to and from bytes, five to a line: left end and right end, each low byte first, and then the colour.
ghost use Rattle.std.specs.Prelude.{◌≡◌, ◌+◌, ◌*◌, ◌%◌, ◌<◌, ◌≤◌, map, length, IfOk, ◌==◌, slice_set};
ghost use Rattle.lines.specs.Lines.{ends, colours};
ghost use Rattle.exports.specs.Bytes.{line_at, lines_of, Put, Kept, Recoloured};

use lines::line::Line;
use std::alloc::{AllocError, Global};

// Whether the bytes are whole lines.
pub(crate) fn are_whole(bytes: &[u8]) -> bool
    ensures { result ≡ (length bytes.now % 5 == 0) }
{
    bytes.len() % 5 == 0
}

// The line of five bytes.
fn as_line(cell: [u8; 5]) -> Line
    ensures { result ≡ line_at cell 0 }
{
    let [low_left, high_left, low_right, high_right, colour] = cell;
    Line {
        left: u16::from_le_bytes([low_left, high_left]),
        right: u16::from_le_bytes([low_right, high_right]),
        colour,
    }
}

// The line of each five bytes.
fn as_lines(heap: Global, cells: &[[u8; 5]]) -> Result<Vec<Line>, AllocError>
    ensures { IfOk result (λ v. v.items ≡ map (λ cell. line_at cell 0) cells.now) }
{
    cells.iter().map(|cell| as_line(*cell)).collect(heap)
}

// The lines of the bytes.
pub(crate) fn decode(heap: Global, bytes: &[u8]) -> Result<Vec<Line>, AllocError>
    ensures { IfOk result (λ v. v.items ≡ lines_of bytes.now) }
{
    let (cells, _rest) = bytes.as_chunks::<5>();
    as_lines(heap, cells)
}

// Puts the colour of line i into the bytes.
fn put_colour(bytes: &mut [u8], i: usize, colour: u8)
    requires { 5 * i + 4 < length bytes.old }
    ensures { bytes.new ≡ slice_set bytes.old (5 * i + 4) colour }
{
    bytes[5 * i + 4] = colour;
}

// Puts the colours of the lines into the first bytes.
fn put_colours(bytes: &mut [u8], lines: &[Line])
    requires { 5 * length lines.now ≤ length bytes.old }
    ensures colours { Put (length lines.now) bytes.new (colours lines.now) }
    ensures ends { Kept bytes.old bytes.new }
{
    for (i, line) in lines.iter().enumerate() {
        put_colour(bytes, i, line.colour);
    }
}

// Puts the colours of the lines into the bytes of the same lines.
pub(crate) fn recolour(bytes: &mut [u8], lines: &[Line])
    requires { ends lines.now ≡ ends (lines_of bytes.old) }
    ensures { Recoloured lines.now bytes.old bytes.new }
{
    put_colours(bytes, lines);
}
