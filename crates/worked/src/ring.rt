// The ring of three: a job image that is loaded, issued and printed as a sheet, between loads and sheets that are refused.
use crate::calls::{fit, load, show_sheet};
use book::draft::Draft;
use cabinet::kind::Cabinet;
use lines::arranger::Arranger;
use ports::sizes::Sizes;

// m = 3, n = 1 and R = 1, and the transfers 0->1, 1->2 and 2->0 in cells 1, 2 and 3.
const RING: [u8; 64] = [
    0x52, 0x42, 0x4B, 0x31, 3, 1, 1, 0, 1, 0, 0, 0, 0, 0, 0, 0, //
    1, 0, 2, 0, 0, 0, 1, 0, 0, 0, 0, 0, 0, 0, 0, 0, //
    1, 0, 3, 0, 1, 0, 2, 0, 0, 0, 0, 0, 0, 0, 0, 0, //
    1, 0, 0, 0, 2, 0, 0, 0, 0, 0, 0, 0, 0, 0, 0, 0,
];

// The sizes of the ring.
const SIZES: Sizes = Sizes { m: 3, n: 1 };

// The ring, but that cell 2 holds the index of a cell that is not there.
const BROKEN: [u8; 64] = [
    0x52, 0x42, 0x4B, 0x31, 3, 1, 1, 0, 1, 0, 0, 0, 0, 0, 0, 0, //
    1, 0, 2, 0, 0, 0, 1, 0, 0, 0, 0, 0, 0, 0, 0, 0, //
    1, 0, 4, 0, 1, 0, 2, 0, 0, 0, 0, 0, 0, 0, 0, 0, //
    1, 0, 0, 0, 2, 0, 0, 0, 0, 0, 0, 0, 0, 0, 0, 0,
];

// The list: a load before the fit, one of the broken ring, one of the ring, and one of the ring again; then the sheet, one of a
// round that is not there, and one for which the buffer is a byte short.
pub(crate) fn load_ring<K: Cabinet + Drop, A: Arranger + Drop, B: Arranger + Drop>(
    rt: &HostRuntime,
    kind: K,
    round_arranger: A,
    spine_arranger: B,
) -> anyhow::Result<()> {
    let mut draft = Draft::new(rt.alloc(), kind, round_arranger, spine_arranger)?;
    load(rt, &mut draft, "ring", &RING)?;
    fit(rt, &mut draft, SIZES, 1)?;
    load(rt, &mut draft, "broken ring", &BROKEN)?;
    load(rt, &mut draft, "ring", &RING)?;
    load(rt, &mut draft, "ring", &RING)?;
    let timetable = draft.issue();
    let mut buffer = [0; 68];
    show_sheet(rt, &timetable, 0, &mut buffer)?;
    show_sheet(rt, &timetable, 1, &mut buffer)?;
    let mut short = [0; 67];
    show_sheet(rt, &timetable, 0, &mut short)
}
