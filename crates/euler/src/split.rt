// The split of lines into two halves whose shares at every end, left or right, differ by at most one.
ghost use Rattle.std.specs.Prelude.{◌≡◌, ◌≤◌, length, IfOk, vec_len};
ghost use Rattle.lines.specs.Lines.{ends, Inside};
ghost use Rattle.lines.specs.Refusals.{told};
ghost use Rattle.euler.specs.Halves.{Halved, split_refusal, Splits};
ghost use Rattle.euler.specs.Pairs.{Empty};

use crate::halves::Placement;
use crate::pairs::{Partners, Singles};
use lines::bounded::Bounded;
use lines::line::Line;
use lines::refusal::ArrangeRefusal;
use std::alloc::{AllocError, Global};

// Tables to work in: the single lines of a side, the partners of each of 1,024 lines, and their halves. All memory is
// got when they are made. Halves stand apart, since a walk writes them while it reads partners.
#[derive(Drop)]
pub struct Splitter {
    singles: Singles,
    partners: Vec<Partners>,
    halves: Vec<Option<bool>>,
    ghost rows: { vec_len partners ≡ 1024 },
    ghost places: { vec_len halves ≡ 1024 },
}

impl Splitter {
    // A splitter in which no line is single.
    pub fn new(heap: Global) -> Result<Splitter, AllocError>
        ensures { IfOk result (λ s. Empty s.singles.table.items) }
    {
        let singles = Singles::new(heap)?;
        let partners = vec![in heap; Partners::default(); 1024]?;
        let halves = vec![in heap; None; 1024]?;
        Ok(Splitter {
            singles,
            partners,
            halves,
        })
    }

    // Splits the lines into two halves, which their colours 0 and 1 tell.
    pub fn split(&mut self, lines: &mut [Line]) -> Result<(), ArrangeRefusal>
        ensures refused { told result ≡ split_refusal lines.old }
        ensures lines { Splits result lines.old lines.new }
    {
        Bounded::new(lines)?;
        self.halve(lines);
        Ok(())
    }

    // Splits lines that are not refused.
    pub(crate) fn halve(&mut self, lines: &mut [Line])
        requires few { length lines.old ≤ 1024 }
        requires inside { Inside (ends lines.old) }
        ensures { Halved lines.old lines.new }
    {
        let partners = self.partners.as_mut_slice();
        let halves = self.halves.as_mut_slice();
        halve_with(lines, &mut self.singles, partners, halves);
    }
}

// Splits the lines with the first places of the tables of partners and halves.
fn halve_with(
    lines: &mut [Line],
    singles: &mut Singles,
    partners: &mut [Partners],
    halves: &mut [Option<bool>],
)
    requires few { length lines.old ≤ 1024 }
    requires inside { Inside (ends lines.old) }
    requires partners { length partners.old ≡ 1024 }
    requires halves { length halves.old ≡ 1024 }
    ensures { Halved lines.old lines.new }
{
    let n = lines.len();
    let partners = &mut partners[..n];
    let halves = &mut halves[..n];
    singles.find_partners(Bounded { lines: &*lines }, partners);
    let mut placement = Placement { halves, partners };
    placement.place_all();
    placement.tell(lines);
}
