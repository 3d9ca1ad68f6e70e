// Functions for a static library: they arrange lines that stand in bytes, five to a line.
//
//   bytes     lines to and from bytes
//   error     why lines of bytes are not arranged, and what C is told
//   arrange   lines of bytes by any arranger
#![tactic(auto)]

ghost use Rattle.chain.specs.Served.{chain_serves};
ghost use Rattle.euler.specs.Halves.{one_bit_to_64};
ghost use Rattle.exports.specs.Bytes.{Outcome};

use crate::arrange::arrange_by_new;
use crate::error::code;
use chain::Chain;
use euler::arranger::Euler;
use std::alloc::Global;

pub mod arrange;
mod bytes;
pub mod error;

// Arranges the lines of the bytes by a chain arranger of its own. C is told a number.
#[unsafe(no_mangle)]
pub extern "C" fn chain_arrange(heap: Global, bytes: &mut [u8], c: u8, times: u32) -> u8
    ensures { Outcome times (chain_serves c) c bytes.old bytes.new result }
{
    code(arrange_by_new(Chain::new(heap), heap, bytes, c, times))
}

// Arranges the lines of the bytes by an Euler arranger of its own. C is told a number.
#[unsafe(no_mangle)]
pub extern "C" fn euler_arrange(heap: Global, bytes: &mut [u8], c: u8, times: u32) -> u8
    ensures { Outcome times (one_bit_to_64 c) c bytes.old bytes.new result }
{
    code(arrange_by_new(Euler::new(heap), heap, bytes, c, times))
}
