// Both rounds of a book filled, one booking too many, and seats for all.
use crate::calls::{book, cancel, fit, show, show_fullest, show_heaviest};
use book::draft::Draft;
use cabinet::kind::Cabinet;
use lines::arranger::Arranger;
use ports::sizes::Sizes;
use ports::transfer::Transfer;

// The four transfers that two nodes can have.
const ALL: [Transfer; 4] = [
    Transfer {
        sender: 0,
        receiver: 0,
    },
    AGAIN,
    Transfer {
        sender: 1,
        receiver: 0,
    },
    Transfer {
        sender: 1,
        receiver: 1,
    },
];

// The transfer that is booked once more.
const AGAIN: Transfer = Transfer {
    sender: 0,
    receiver: 1,
};

// The list: four bookings that fill both rounds, a fifth that is refused and, after a cancel, accepted; then an issue.
pub(crate) fn fill<K: Cabinet + Drop, A: Arranger + Drop, B: Arranger + Drop>(
    rt: &HostRuntime,
    kind: K,
    round_arranger: A,
    spine_arranger: B,
) -> anyhow::Result<()> {
    let mut draft = Draft::new(rt.alloc(), kind, round_arranger, spine_arranger)?;
    fit(rt, &mut draft, Sizes { m: 1, n: 2 }, 2)?;
    show_heaviest(rt, draft.table())?;
    for transfer in ALL {
        book(rt, &mut draft, transfer)?;
    }
    book(rt, &mut draft, AGAIN)?;
    cancel(rt, &mut draft, 2)?;
    show_heaviest(rt, draft.table())?;
    cancel(rt, &mut draft, 2)?;
    book(rt, &mut draft, AGAIN)?;
    let need = draft.need();
    println!(rt; "need {need}")?;
    let timetable = draft.issue();
    for booking in timetable.table().live() {
        show(rt, &timetable, *booking)?;
    }
    show_fullest(rt, &timetable)?;
    show_heaviest(rt, timetable.table())?;
    let rounds = timetable.round_arranger().meter();
    let spines = timetable.spine_arranger().meter();
    println!(rt; "meters {rounds} {spines}")?;
    Ok(())
}
