// The ring of three, with a few bytes changed, and what is printed of each.
use crate::printing::printout;
use std::alloc::Global;
use std::process::Abort;
use std::test::Fail;

// The ring: a head with m = 3, n = 1 and R = 1, and transfers from each of three nodes to the next.
const RING: [u8; 64] = [
    0x52, 0x42, 0x4B, 0x31, 3, 1, 1, 0, 1, 0, 0, 0, 0, 0, 0, 0, // head
    1, 0, 2, 0, 0, 0, 1, 0, 0, 0, 0, 0, 0, 0, 0, 0, // 1
    1, 0, 3, 0, 1, 0, 2, 0, 0, 0, 0, 0, 0, 0, 0, 0, // 2
    1, 0, 0, 0, 2, 0, 0, 0, 0, 0, 0, 0, 0, 0, 0, 0, // 3
];

// The sheet of the ring.
const SHEET: &str = "R00 003\n000>001 00 81 81 BF\n001>002 00 81 81 BF\n002>000 00 81 BE BF\n";

// The same without the transfer of node 2, and a sheet without any.
const TWO: &str = "R00 002\n000>001 00 81 81 BF\n001>002 00 81 81 BF\n";

const NONE: &str = "R00 000\n";

// A byte that is not the ring's: its cell, its place there, and what it is.
type Change = (u8, u8, u8);

// Compares what is printed of the ring with these changes.
fn expect(
    rt: &(impl Abort + Copy),
    heap: Global,
    changes: &[Change],
    wanted: &str,
) -> Result<(), Fail> {
    let mut image = Vec::from_slice(heap, &RING)?;
    for &(cell, place, byte) in changes {
        let there = image.get_mut(16 * usize::from(cell) + usize::from(place));
        *there.ok_or("a change outside the image")? = byte;
    }
    let printed = printout(heap, &image)?;
    assert_eq!(rt;
        printed.text.as_slice(),
        wanted.as_bytes(),
        "changes {changes:?}"
    );
    Ok(())
}

// Sheets, also of images with fewer transfers, with transfers in another order and with more rounds.
#[test]
fn sheets(rt: HostRuntime) -> Result<(), Fail> {
    const CASES: &[(&'static [Change], &'static str)] = &[
        (&[], SHEET),
        (&[(2, 2, 0)], TWO),
        (&[(0, 8, 0)], NONE),
        // the chain goes through the cells 2, 3 and 1
        (&[(0, 8, 2), (3, 2, 1), (1, 2, 0)], SHEET),
        // a note in cell 3
        (&[(3, 0, 2)], TWO),
    ];
    for &(changes, wanted) in CASES {
        expect(&rt, rt.alloc(), changes, wanted)?;
    }
    Ok(())
}

// Refusals, in the order in which they are tested.
#[test]
fn refusals(rt: HostRuntime) -> Result<(), Fail> {
    const CASES: &[(&'static [Change], &'static str)] = &[
        (&[(0, 0, 0), (0, 4, 0)], "refused 16 I 00000\n"),
        (&[(0, 4, 0), (0, 5, 3)], "refused 01 F 00000\n"),
        (&[(0, 4, 33)], "refused 01 F 00000\n"),
        (&[(0, 5, 3), (0, 6, 0)], "refused 02 F 00000\n"),
        (&[(0, 6, 0), (0, 8, 9)], "refused 03 F 00000\n"),
        (&[(0, 6, 65)], "refused 03 F 00000\n"),
        (&[(0, 8, 4)], "refused 18 I 00000\n"),
        (&[(3, 2, 1)], "refused 19 I 00003\n"),
        (&[(2, 0, 3)], "refused 20 R 00002\n"),
        (&[(2, 15, 1)], "refused 21 R 00002\n"),
        (&[(2, 10, 1)], "refused 22 R 00002\n"),
        (&[(3, 4, 3)], "refused 06 B 00003\n"),
        (&[(3, 6, 3)], "refused 07 B 00003\n"),
        (&[(2, 4, 0)], "refused 08 B 00002\n"),
        (&[(2, 6, 1)], "refused 09 B 00002\n"),
    ];
    for &(changes, wanted) in CASES {
        expect(&rt, rt.alloc(), changes, wanted)?;
    }
    Ok(())
}
