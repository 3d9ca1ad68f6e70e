// The Euler arranger: its room to work in, and its meter.
ghost use Rattle.std.specs.Prelude.{◌≡◌, zero, suc, ◌≤◌, IfOk, vec_len};
ghost use Rattle.std.proofs.Math.Path.{refl};
ghost use Rattle.euler.specs.Halves.{one_bit_to_64};
ghost use Rattle.euler.specs.Powers.{served_within};
ghost use Rattle.std.proofs.Common.{arith};
ghost use Rattle.std.specs.Int.Count.{ones, ones_in};

use crate::colour::spread;
use crate::range::ColourRange;
use crate::split::Splitter;
use lines::arranger::{Arranger, add_lines};
use lines::degrees::Degrees;
use lines::line::Line;
use lines::refusal::ArrangeRefusal;
use std::alloc::{AllocError, Global};

// Room for the tests, for the splits, and for two copies of 1,024 lines at each of six splits.
#[derive(Drop)]
pub struct Euler {
    degrees: Degrees,
    splitter: Splitter,
    room: Vec<Line>,
    meter: u32,
    ghost copies: { vec_len room ≡ 12288 },
    ghost stops: { meter ≤ 4294967295 },
}

impl Euler {
    // An arranger that has arranged no lines yet.
    pub fn new(heap: Global) -> Result<Euler, AllocError>
        ensures { IfOk result (λ a. a.meter ≡ 0) }
    {
        let degrees = Degrees::new(heap)?;
        let splitter = Splitter::new(heap)?;
        let room = blank_lines(heap)?;
        Ok(Euler {
            degrees,
            splitter,
            room,
            meter: 0,
        })
    }
}

// Room for two copies of 1,024 lines at each of six splits.
fn blank_lines(heap: Global) -> Result<Vec<Line>, AllocError>
    ensures { IfOk result (λ v. vec_len v ≡ 12288) }
{
    let blank = Line {
        left: 0,
        right: 0,
        colour: 0,
    };
    Ok(vec![in heap; blank; 12288]?)
}

// Whether c is one of 1, 2, 4, 8, 16, 32 and 64.
fn is_served(c: u8) -> bool
    ensures { result ≡ one_bit_to_64 c }
{
    c.count_ones() == 1 && c <= 64
}

impl Arranger for Euler {
    ghost served = { one_bit_to_64 };

    ghost shows = { λ a. a.meter };

    ghost within = { λ c h. served_within c h };

    ghost powers = { unfold ones ones_in in
        elim [
          | zero ↦ λ l. refl
          | suc zero ↦ λ l. refl
          | suc (suc zero) ↦ λ l. refl
          | suc (suc (suc zero)) ↦ λ l. refl
          | suc (suc (suc (suc zero))) ↦ λ l. refl
          | suc (suc (suc (suc (suc zero)))) ↦ λ l. refl
          | suc (suc (suc (suc (suc (suc zero))))) ↦ λ l. refl
          | suc (suc (suc (suc (suc (suc (suc k)))))) ↦ λ l. absurd (omega arith)
        ] };

    ghost stops = { λ a. a.stops };

    fn serves(&self, c: u8) -> bool {
        is_served(c)
    }

    fn meter(&self) -> u32 {
        self.meter
    }

    fn arrange(&mut self, lines: &mut [Line], c: u8) -> Result<(), ArrangeRefusal> {
        self.degrees.check(lines, is_served(c), c)?;
        let colours = ColourRange {
            first: 0,
            count: c,
            splits: c.trailing_zeros(),
        };
        spread(&mut self.splitter, lines, self.room.as_mut_slice(), colours);
        self.meter = add_lines(self.meter, lines.len());
        Ok(())
    }
}
