// worked: short lists of calls. It prints what each call answers, and reports between. The first list is run over both cabinet
// kinds and with the arrangers in both orders; the timetables of four more are compared, and two load a job image.
//
//   calls       what is printed of each call and each report
//   filling     both rounds of a book filled, one booking too many, and seats for all
//   ring        a job image loaded, and the sheet of its round
//   comparison  timetables that are alike, and one that is not
#![tactic(auto)]

use chain::Chain;
use euler::arranger::Euler;
use kinds::folded::Folded;
use kinds::straight::Straight;

mod calls;
mod comparison;
mod filling;
mod ring;

use crate::comparison::compare;
use crate::filling::fill;
use crate::ring::load_ring;

fn main(rt: HostRuntime) -> anyhow::Result<()> {
    let heap = rt.alloc();
    println!(rt; "folded, rounds by chain, spines by Euler")?;
    fill(&rt, Folded, Chain::new(heap)?, Euler::new(heap)?)?;
    println!(rt; "folded, rounds by Euler, spines by chain")?;
    fill(&rt, Folded, Euler::new(heap)?, Chain::new(heap)?)?;
    println!(rt; "straight, rounds by chain, spines by Euler")?;
    fill(&rt, Straight, Chain::new(heap)?, Euler::new(heap)?)?;
    println!(rt; "straight, rounds by Euler, spines by chain")?;
    fill(&rt, Straight, Euler::new(heap)?, Chain::new(heap)?)?;
    compare(&rt)?;
    println!(rt; "folded, rounds by chain")?;
    load_ring(&rt, Folded, Chain::new(heap)?, Euler::new(heap)?)?;
    println!(rt; "straight, rounds by Euler")?;
    load_ring(&rt, Straight, Euler::new(heap)?, Chain::new(heap)?)
}
