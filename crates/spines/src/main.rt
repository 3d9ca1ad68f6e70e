// spines: shares an example permutation out over four spines, with each arranger, and prints which transfers go by
// which spine.
#![tactic(auto)]

use chain::Chain;
use euler::arranger::Euler;
use lines::arranger::Arranger;
use spinesets::example::example_sets;

// The sets that an arranger gives, under its name.
fn show<A: Arranger>(rt: &HostRuntime, name: &str, arranger: &mut A) -> anyhow::Result<()> {
    let sets = example_sets(rt.alloc(), arranger)?;
    println!(rt; "{name}")?;
    rt.print(sets.as_str())?;
    Ok(())
}

fn main(rt: HostRuntime) -> anyhow::Result<()> {
    let heap = rt.alloc();
    let mut chain = Chain::new(heap)?;
    show(&rt, "chain", &mut chain)?;
    let mut euler = Euler::new(heap)?;
    show(&rt, "euler", &mut euler)
}
