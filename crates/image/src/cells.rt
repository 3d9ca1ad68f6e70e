// The reader that goes from cell to cell.
ghost use Rattle.std.specs.Prelude.{◌≡◌, ◌<◌, ◌≤◌, length};

use crate::fields::next_index;
use crate::refusal::ImageRefusal;

// The most cells that an image has.
pub const MAX_CELLS: usize = 2048;

// A reader of a chain: each cell holds the index of the next, and 0 ends the chain. No cell comes twice. What else is in a
// cell is not looked at.
#[derive(Drop)]
pub struct CellReader<'a> {
    cells: &'a [[u8; 16]],
    // which cells were visited
    visited: [bool; MAX_CELLS],
    // the cell that holds the index; 0 is the head
    holder: u16,
    // the index of the next cell
    index: u16,
    ghost fits: { length cells.now ≤ 2048 },
}

impl<'a> CellReader<'a> {
    ghost use Rattle.image.specs.Steps.{state, start, step, moved_to, passed_cell, told_step};

    // A reader at the head, which holds the index of the first cell.
    pub(crate) fn new(cells: &'a [[u8; 16]], first: u16) -> CellReader<'a>
        requires { length cells.now ≤ 2048 }
        ensures { state result ≡ start cells.now first }
    {
        CellReader {
            cells,
            visited: [false; MAX_CELLS],
            holder: 0,
            index: first,
        }
    }

    // The cell that comes next, with its number, or none at the end of the chain. An index is looked at only here, so that a
    // caller is done with one cell before the index in it can be refused.
    pub fn peek(&self) -> Result<Option<(u16, &'a [u8; 16])>, ImageRefusal>
        ensures { told_step result ≡ step (state self.now) }
    {
        let index = self.index;
        if index == 0 {
            return Ok(None);
        }
        let Some(cell) = self.cells.get(usize::from(index)) else {
            return Err(ImageRefusal::PastEnd(self.holder));
        };
        if self.visited[usize::from(index)] {
            return Err(ImageRefusal::Visited(self.holder));
        }
        Ok(Some((index, cell)))
    }

    // Goes to the cell that the index names.
    pub(crate) fn pass(&mut self, cell: &[u8; 16])
        requires { self.old.index < 2048 }
        ensures { state self.new ≡ moved_to cell.now (state self.old) }
    {
        self.visited[usize::from(self.index)] = true;
        self.holder = self.index;
        self.index = next_index(cell);
    }

    // Goes to the next cell; a refusal leaves the reader where it is.
    #[tactic(auto, unfolding(crate::specs::Steps::passed_cell))]
    pub fn next_cell(&mut self) -> Result<Option<(u16, &'a [u8; 16])>, ImageRefusal>
        ensures answer { told_step result ≡ step (state self.old) }
        ensures state { state self.new ≡ passed_cell (state self.old) }
    {
        let next = self.peek()?;
        if let Some((_, cell)) = next {
            self.pass(cell);
        }
        Ok(next)
    }
}
