// Timetables that are alike, and one that is not.
use crate::calls::{book, cancel, fit, show, show_fullest, show_heaviest};
use book::draft::Draft;
use book::timetable::Timetable;
use cabinet::kind::Cabinet;
use chain::Chain;
use euler::arranger::Euler;
use kinds::folded::Folded;
use kinds::straight::Straight;
use lines::arranger::Arranger;
use ports::sizes::Sizes;
use ports::transfer::Transfer;
use reports::likeness::alike;

// Three transfers, two of them to one node.
const THREE: [Transfer; 3] = [
    Transfer {
        sender: 0,
        receiver: 2,
    },
    Transfer {
        sender: 1,
        receiver: 2,
    },
    Transfer {
        sender: 3,
        receiver: 1,
    },
];

// The timetable of a new book with the three transfers. Before them the first is booked and cancelled so many times. Prints
// each call, reports and seats.
fn issue<K: Cabinet + Drop, A: Arranger + Drop, B: Arranger + Drop>(
    rt: &HostRuntime,
    kind: K,
    round_arranger: A,
    spine_arranger: B,
    cancelled: u16,
) -> anyhow::Result<Timetable<K, A, B>> {
    let mut draft = Draft::new(rt.alloc(), kind, round_arranger, spine_arranger)?;
    fit(rt, &mut draft, Sizes { m: 2, n: 2 }, 2)?;
    for ticket in 1..=cancelled {
        book(rt, &mut draft, THREE[0])?;
        cancel(rt, &mut draft, ticket)?;
    }
    for transfer in THREE {
        book(rt, &mut draft, transfer)?;
    }
    show_heaviest(rt, draft.table())?;
    let timetable = draft.issue();
    for booking in timetable.table().live() {
        show(rt, &timetable, *booking)?;
    }
    show_fullest(rt, &timetable)?;
    Ok(timetable)
}

// Prints whether two timetables are alike.
fn show_alike(rt: &HostRuntime, are_alike: bool) -> anyhow::Result<()> {
    if are_alike {
        println!(rt; "alike")?;
    } else {
        println!(rt; "not alike")?;
    }
    Ok(())
}

// Compares a timetable with one of the other kind, with one under other tickets, and with one by the two arrangers the other
// way round.
pub(crate) fn compare(rt: &HostRuntime) -> anyhow::Result<()> {
    let heap = rt.alloc();
    println!(rt; "folded, rounds by chain")?;
    let first = issue(rt, Folded, Chain::new(heap)?, Euler::new(heap)?, 0)?;
    println!(rt; "straight, rounds by chain")?;
    let straight = issue(rt, Straight, Chain::new(heap)?, Euler::new(heap)?, 0)?;
    show_alike(rt, alike(&first, &straight))?;
    println!(rt; "folded, rounds by chain, under other tickets")?;
    let later = issue(rt, Folded, Chain::new(heap)?, Euler::new(heap)?, 1)?;
    show_alike(rt, alike(&first, &later))?;
    println!(rt; "folded, rounds by Euler")?;
    let by_euler = issue(rt, Folded, Euler::new(heap)?, Chain::new(heap)?, 0)?;
    show_alike(rt, alike(&first, &by_euler))
}
