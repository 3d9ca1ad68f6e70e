// The chain arranger. It gives the lines colours one at a time; where the two ends of a line have no free colour in
// common, two colours change places along a path.
//
//   colour      one of the 64 colours, and the want of one
//   end         one of the 512 ends of a side
//   palette     which colours are in use at an end
//   slots       which line has which colour at an end
//   colouring   the work space: colours by line, and slots by end
//   empty       the work space before the first line
//   entries     reading and writing the work space at an end
//   task        what is to be coloured
//   exchange    a line loses its colour or gets one; two colours change places along a path
//   insert      the lines get their colours, which are written into them at the end
#![tactic(auto)]

ghost use Rattle.std.specs.Prelude.{◌≡◌, ◌^◌, ◌≤◌, true, IfOk, Some, nat_le};
ghost use Rattle.chain.specs.Served.{chain_serves};
ghost use Rattle.chain.specs.Colourings.{Empty, Crowded};
ghost use Rattle.lines.specs.Lines.{ends};
ghost use Rattle.lines.specs.Refusals.{refusal, refusal_due};
ghost use Rattle.std.proofs.Props.{props};
ghost use Rattle.std.proofs.Common.{pow_pos, pow_mono, rules};
ghost use Rattle.std.proofs.lemmas.Bool.{and_from, le-leb};

use crate::colouring::Colouring;
use lines::arranger::{Arranger, add_lines};
use lines::bounded::Bounded;
use lines::degrees::Degrees;
use lines::line::Line;
use lines::refusal::ArrangeRefusal;
use std::alloc::{AllocError, Global};

mod colour;
mod colouring;
mod empty;
mod end;
mod entries;
mod exchange;
mod insert;
mod palette;
mod slots;
mod task;

// Serves 1 to 64 colours. All memory is taken when it is made; the work space is empty between calls.
#[derive(Drop)]
pub struct Chain {
    degrees: Degrees,
    colouring: Colouring,
    meter: u32,
    ghost stops: { meter ≤ 4294967295 },
    ghost empty: { Empty colouring } by { Prim.hlevel props },
}

// Whether a count of colours is served.
fn is_served(c: u8) -> bool
    ensures { result ≡ chain_serves c }
{
    (1..=64).contains(&c)
}

// The refusal that is due for lines with a crowded end. Within bounds it is 26, for the end that the counts tell.
#[tactic(auto, using(crate::proofs::Refused::crowd_err))]
fn refusal_where_crowded(degrees: &mut Degrees, lines: &[Line], c: u8) -> ArrangeRefusal
    requires crowded { Crowded c (ends lines.now) }
    ensures { Some (refusal result) ≡ refusal_due true c lines.now }
{
    degrees.check(lines, true, c).unwrap_err()
}

impl Chain {
    // An arranger whose meter shows 0.
    pub fn new(heap: Global) -> Result<Chain, AllocError>
        ensures { IfOk result (λ a. a.meter ≡ 0) }
    {
        let degrees = Degrees::new(heap)?;
        let colouring = Colouring::new(heap)?;
        Ok(Chain {
            degrees,
            colouring,
            meter: 0,
        })
    }
}

impl Arranger for Chain {
    ghost served = { chain_serves };

    ghost shows = { λ a. a.meter };

    ghost within = { Prim.search rules };

    ghost powers = { λ k l.
        let top : 2 ^ k ≤ 64 = pow_mono {j = 6} l in
        and_from (nat_le 1 (2 ^ k)) (nat_le (2 ^ k) 64) (le-leb 1 (2 ^ k) (pow_pos k)) (le-leb (2 ^ k) 64 top) };

    ghost stops = { λ a. a.stops };

    fn serves(&self, c: u8) -> bool {
        is_served(c)
    }

    fn meter(&self) -> u32 {
        self.meter
    }

    #[tactic(auto, using(crate::proofs::Refused::arranged_accepted))]
    fn arrange(&mut self, lines: &mut [Line], c: u8) -> Result<(), ArrangeRefusal> {
        if !is_served(c) {
            return Err(ArrangeRefusal::NotServed);
        }
        Bounded::new(lines)?;
        if self.colouring.colour(lines, c).is_err() {
            return Err(refusal_where_crowded(&mut self.degrees, lines, c));
        }
        self.meter = add_lines(self.meter, lines.len());
        Ok(())
    }
}
