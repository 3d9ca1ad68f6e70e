// Images that are the base with a few bytes changed, and what is told of each.
use crate::told::{changed, told};
use image::labels::Texts;
use image::opened::Image;
use image::refusal::ImageRefusal;
use image::transfers::read_transfers;
use std::alloc::Global;
use std::process::Abort;
use std::test::Fail;

// The base: a head, transfers in the cells 1, 2 and 5, a foreign cell 3, a note in cell 4; the chain is 1, 4, 5, 3, 2.
const BASE: [u8; 96] = [
    0x52, 0x42, 0x4B, 0x31, 3, 1, 1, 0, 1, 0, 0, 0, 0, 0, 0, 0, // head
    1, 0, 4, 0, 0, 0, 1, 0, 0, 0, 5, 0, 0, 0, 0, 0, // 1
    1, 0, 0, 0, 2, 0, 0, 0, 6, 0, 5, 1, 0, 0, 0, 0, // 2
    200, 9, 2, 0, 1, 2, 3, 4, 5, 6, 7, 8, 9, 10, 11, 12, // 3
    2, 0, 5, 0, 0x73, 0x74, 0x61, 0x67, 0x65, 0x20, 0x22, 0x74, 0x77, 0x6F, 0x22, 0, // 4
    1, 0, 3, 0, 1, 0, 2, 0, 6, 0, 4, 0, 0, 0, 0, 0, // 5
];

const JOB: &[u8] = b"first then";

const SITE: &[u8] = b"sheet third";

// The lines of the base, and what begins the lines of the cells 1 and 4.
const H: &str = "00000 head m 3 n 1 R 1\n";

const C1: &str = "00001 transfer 0->1 \"first\"\n";

const C2: &str = "00002 transfer 2->0 \"third\"\n";

const C3: &str = "00003 foreign 200\n";

const C4: &str = "00004 note \"stage \\22two\\22\\00\"\n";

const C5: &str = "00005 transfer 1->2 \"then\"\n";

const T1: &str = "00001 transfer 0->1 ";

const N4: &str = "00004 note ";

// A byte that is not the base's: its cell, its place there, and what it is.
type Change = (u8, u8, u8);

// What is changed, and the parts of the text that is told.
type Case = (&'static [Change], &'static [&'static str]);

// An image as long as the length, with the changes, is told as the parts together.
fn expect(
    rt: &(impl Abort + Copy),
    heap: Global,
    length: usize,
    changes: &[Change],
    parts: &[&str],
) -> Result<(), Fail> {
    let texts = Texts {
        job: JOB,
        site: SITE,
    };
    let image = changed(heap, &BASE, length, changes)?;
    let text = told(heap, &image, texts)?;
    let mut wanted = String::new(heap);
    for part in parts {
        wanted.push_str(part)?;
    }
    assert_eq!(rt;
        text.as_str(),
        wanted.as_str(),
        "length {length}, changes {changes:?}"
    );
    Ok(())
}

// Each case of a table, with images as long as the base.
fn expect_all(rt: &(impl Abort + Copy), heap: Global, cases: &[Case]) -> Result<(), Fail> {
    for &(changes, parts) in cases {
        expect(rt, heap, 96, changes, parts)?;
    }
    Ok(())
}

// Lengths: whole cells, from 1 to 2,048 of them.
#[test]
fn lengths(rt: HostRuntime) -> Result<(), Fail> {
    const CASES: &[(usize, &'static [Change], &'static [&'static str])] = &[
        (96, &[], &[H, C1, C4, C5, C3, C2]),
        (0, &[], &["refused 15 I 00000"]),
        (1, &[], &["refused 15 I 00000"]),
        (15, &[], &["refused 15 I 00000"]),
        (16, &[(0, 8, 0)], &[H]),
        (16, &[], &["refused 18 I 00000"]),
        (17, &[], &["refused 15 I 00000"]),
        (80, &[], &["refused 18 I 00004"]),
        (95, &[], &["refused 15 I 00000"]),
        (97, &[], &["refused 15 I 00000"]),
        (32_768, &[], &[H, C1, C4, C5, C3, C2]),
        (32_769, &[], &["refused 15 I 00000"]),
        (32_784, &[], &["refused 15 I 00000"]),
        // a wrong length and a wrong mark
        (17, &[(0, 0, 0)], &["refused 15 I 00000"]),
        (32_784, &[(0, 0, 0)], &["refused 15 I 00000"]),
        (16, &[(0, 0, 0)], &["refused 16 I 00000"]),
        // one more cell, in the chain and out of it
        (
            112,
            &[(2, 2, 6), (6, 0, 130)],
            &[H, C1, C4, C5, C3, C2, "00006 foreign 130\n"],
        ),
        (112, &[(2, 2, 6)], &["refused 20 R 00006"]),
        (112, &[(2, 2, 7)], &["refused 18 I 00002"]),
        (112, &[], &[H, C1, C4, C5, C3, C2]),
        (112, &[(6, 0, 77)], &[H, C1, C4, C5, C3, C2]),
        // the last cell of the longest image
        (32_768, &[(0, 8, 255), (0, 9, 7)], &["refused 20 R 02047"]),
        (32_768, &[(0, 8, 0), (0, 9, 8)], &["refused 18 I 00000"]),
    ];
    for &(length, changes, parts) in CASES {
        expect(&rt, rt.alloc(), length, changes, parts)?;
    }
    Ok(())
}

// The head: the mark, the spare bytes and the first index.
#[test]
fn heads(rt: HostRuntime) -> Result<(), Fail> {
    const CASES: &[Case] = &[
        // each byte of the mark
        (&[(0, 0, 0)], &["refused 16 I 00000"]),
        (&[(0, 0, 0x51)], &["refused 16 I 00000"]),
        (&[(0, 1, 0x43)], &["refused 16 I 00000"]),
        (&[(0, 2, 0x6B)], &["refused 16 I 00000"]),
        (&[(0, 3, 0x30)], &["refused 16 I 00000"]),
        (&[(0, 3, 0x32)], &["refused 16 I 00000"]),
        // each spare byte
        (&[(0, 7, 1)], &["refused 16 I 00000"]),
        (&[(0, 10, 1)], &["refused 16 I 00000"]),
        (&[(0, 11, 128)], &["refused 16 I 00000"]),
        (&[(0, 12, 1)], &["refused 16 I 00000"]),
        (&[(0, 13, 1)], &["refused 16 I 00000"]),
        (&[(0, 14, 1)], &["refused 16 I 00000"]),
        (&[(0, 15, 1)], &["refused 16 I 00000"]),
        // the sizes and the rounds are not looked at
        (
            &[(0, 8, 0), (0, 4, 0), (0, 5, 7), (0, 6, 255)],
            &["00000 head m 0 n 7 R 255\n"],
        ),
        // the first index
        (&[(0, 8, 0)], &[H]),
        (&[(0, 8, 2)], &[H, C2]),
        (&[(0, 8, 5)], &[H, C5, C3, C2]),
        (&[(0, 8, 6)], &["refused 18 I 00000"]),
        (&[(0, 8, 255)], &["refused 18 I 00000"]),
        (&[(0, 9, 1)], &["refused 18 I 00000"]),
        (&[(0, 8, 0), (0, 9, 128)], &["refused 18 I 00000"]),
        // a spare byte and the first index
        (&[(0, 15, 1), (0, 8, 6)], &["refused 16 I 00000"]),
    ];
    expect_all(&rt, rt.alloc(), CASES)
}

// Kinds: 1 a transfer, 2 a note, 128 to 255 foreign, and no others.
#[test]
fn kinds(rt: HostRuntime) -> Result<(), Fail> {
    const CASES: &[Case] = &[
        (&[(4, 0, 0)], &["refused 20 R 00004"]),
        (&[(4, 0, 3)], &["refused 20 R 00004"]),
        (&[(4, 0, 4)], &["refused 20 R 00004"]),
        (&[(4, 0, 64)], &["refused 20 R 00004"]),
        (&[(4, 0, 127)], &["refused 20 R 00004"]),
        (&[(4, 0, 128), (4, 2, 0)], &[H, C1, "00004 foreign 128\n"]),
        (&[(4, 0, 129), (4, 2, 0)], &[H, C1, "00004 foreign 129\n"]),
        (&[(4, 0, 255), (4, 2, 0)], &[H, C1, "00004 foreign 255\n"]),
        // each kind as others
        (
            &[(1, 0, 2), (1, 2, 0)],
            &[
                H,
                "00001 note \"\\00\\00\\01\\00\\00\\00\\05\\00\\00\\00\\00\\00\"\n",
            ],
        ),
        (&[(1, 0, 128), (1, 2, 0)], &[H, "00001 foreign 128\n"]),
        (&[(4, 0, 1)], &["refused 21 R 00004"]),
        (&[(3, 0, 1)], &["refused 21 R 00003"]),
        (&[(3, 0, 0)], &["refused 20 R 00003"]),
    ];
    expect_all(&rt, rt.alloc(), CASES)
}

// Spare bytes: those of a transfer and of a note are zero, and a foreign cell has none.
#[test]
fn spare_bytes(rt: HostRuntime) -> Result<(), Fail> {
    const CASES: &[Case] = &[
        // a transfer
        (&[(1, 1, 1)], &["refused 21 R 00001"]),
        (&[(1, 12, 1)], &["refused 21 R 00001"]),
        (&[(1, 13, 1)], &["refused 21 R 00001"]),
        (&[(1, 14, 1)], &["refused 21 R 00001"]),
        (&[(1, 15, 1)], &["refused 21 R 00001"]),
        (&[(1, 1, 128)], &["refused 21 R 00001"]),
        (&[(1, 15, 128)], &["refused 21 R 00001"]),
        // a note, whose text begins at byte 4
        (&[(4, 1, 1)], &["refused 21 R 00004"]),
        (&[(4, 1, 255)], &["refused 21 R 00004"]),
        (
            &[(4, 4, 0x5B), (4, 15, 0x5D), (4, 2, 0)],
            &[H, C1, N4, "\"[tage \\22two\\22]\"\n"],
        ),
        // a foreign cell
        (&[(3, 1, 0)], &[H, C1, C4, C5, C3, C2]),
        (&[(3, 1, 1)], &[H, C1, C4, C5, C3, C2]),
        (&[(3, 1, 255)], &[H, C1, C4, C5, C3, C2]),
        (&[(3, 4, 0), (3, 15, 255)], &[H, C1, C4, C5, C3, C2]),
    ];
    expect_all(&rt, rt.alloc(), CASES)
}

// Labels: place plus length do not pass the end of the text, and the source is 0 or 1. Cell 1 ends the chain.
#[test]
fn labels(rt: HostRuntime) -> Result<(), Fail> {
    const CASES: &[Case] = &[
        // the job text
        (&[(1, 10, 10), (1, 2, 0)], &[H, T1, "\"first then\"\n"]),
        (&[(1, 10, 11)], &["refused 22 R 00001"]),
        (&[(1, 10, 255)], &["refused 22 R 00001"]),
        (&[(1, 8, 5), (1, 2, 0)], &[H, T1, "\" then\"\n"]),
        (&[(1, 8, 6)], &["refused 22 R 00001"]),
        (&[(1, 10, 0), (1, 2, 0)], &[H, T1, "\"\"\n"]),
        (&[(1, 8, 10), (1, 10, 0), (1, 2, 0)], &[H, T1, "\"\"\n"]),
        (&[(1, 8, 11), (1, 10, 0)], &["refused 22 R 00001"]),
        // the high byte of the place
        (&[(1, 9, 1)], &["refused 22 R 00001"]),
        (&[(1, 9, 1), (1, 10, 0)], &["refused 22 R 00001"]),
        (
            &[(1, 8, 255), (1, 9, 255), (1, 10, 255)],
            &["refused 22 R 00001"],
        ),
        // the site sheet
        (&[(1, 11, 1), (1, 2, 0)], &[H, T1, "\"sheet\"\n"]),
        (
            &[(1, 11, 1), (1, 10, 11), (1, 2, 0)],
            &[H, T1, "\"sheet third\"\n"],
        ),
        (&[(1, 11, 1), (1, 10, 12)], &["refused 22 R 00001"]),
        (
            &[(1, 11, 1), (1, 8, 10), (1, 10, 1), (1, 2, 0)],
            &[H, T1, "\"d\"\n"],
        ),
        (
            &[(1, 11, 1), (1, 8, 11), (1, 10, 1)],
            &["refused 22 R 00001"],
        ),
        // other sources
        (&[(1, 11, 2)], &["refused 22 R 00001"]),
        (&[(1, 11, 255)], &["refused 22 R 00001"]),
        (&[(1, 11, 2), (1, 10, 0)], &["refused 22 R 00001"]),
        // another cell
        (&[(2, 8, 7)], &["refused 22 R 00002"]),
        (&[(5, 10, 5)], &["refused 22 R 00005"]),
        // the nodes are not looked at
        (
            &[(1, 4, 255), (1, 5, 255), (1, 7, 2), (1, 2, 0)],
            &[H, "00001 transfer 65535->513 \"first\"\n"],
        ),
    ];
    expect_all(&rt, rt.alloc(), CASES)
}

// Next indexes: no cell comes twice, and none is past the last cell.
#[test]
fn next_indexes(rt: HostRuntime) -> Result<(), Fail> {
    const CASES: &[Case] = &[
        // the cell itself
        (&[(1, 2, 1)], &["refused 19 I 00001"]),
        (&[(4, 2, 4)], &["refused 19 I 00004"]),
        (&[(3, 2, 3)], &["refused 19 I 00003"]),
        (&[(2, 2, 2)], &["refused 19 I 00002"]),
        // a cell before it in the chain
        (&[(4, 2, 1)], &["refused 19 I 00004"]),
        (&[(5, 2, 1)], &["refused 19 I 00005"]),
        (&[(5, 2, 4)], &["refused 19 I 00005"]),
        (&[(2, 2, 5)], &["refused 19 I 00002"]),
        // the end of the chain
        (&[(1, 2, 0)], &[H, C1]),
        (&[(4, 2, 0)], &[H, C1, C4]),
        (&[(3, 2, 0)], &[H, C1, C4, C5, C3]),
        // past the last cell
        (&[(1, 2, 6)], &["refused 18 I 00001"]),
        (&[(4, 2, 6)], &["refused 18 I 00004"]),
        (&[(2, 2, 6)], &["refused 18 I 00002"]),
        (&[(2, 2, 255)], &["refused 18 I 00002"]),
        // the high byte
        (&[(1, 3, 1)], &["refused 18 I 00001"]),
        (&[(1, 2, 0), (1, 3, 1)], &["refused 18 I 00001"]),
        (&[(2, 3, 128)], &["refused 18 I 00002"]),
        // a cell left out
        (&[(1, 2, 5)], &[H, C1, C5, C3, C2]),
        (&[(4, 2, 3)], &[H, C1, C4, C3, C2]),
    ];
    expect_all(&rt, rt.alloc(), CASES)
}

// Of two faults the first is told, as the chain goes and as a cell is read.
#[test]
fn two_faults(rt: HostRuntime) -> Result<(), Fail> {
    const CASES: &[Case] = &[
        // kind and spare byte
        (&[(4, 0, 3), (4, 1, 1)], &["refused 20 R 00004"]),
        (&[(1, 0, 0), (1, 1, 1)], &["refused 20 R 00001"]),
        // spare byte and label
        (&[(1, 12, 1), (1, 10, 255)], &["refused 21 R 00001"]),
        (&[(1, 1, 1), (1, 11, 2)], &["refused 21 R 00001"]),
        // a fault of a cell and its next index
        (&[(1, 0, 0), (1, 2, 6)], &["refused 20 R 00001"]),
        (&[(1, 1, 1), (1, 2, 6)], &["refused 21 R 00001"]),
        (&[(1, 10, 255), (1, 2, 9)], &["refused 22 R 00001"]),
        (&[(1, 11, 2), (1, 2, 1)], &["refused 22 R 00001"]),
        // two cells
        (&[(5, 0, 0), (2, 10, 255)], &["refused 20 R 00005"]),
        (&[(4, 2, 6), (5, 0, 0)], &["refused 18 I 00004"]),
        (&[(5, 2, 4), (3, 0, 0)], &["refused 19 I 00005"]),
        (&[(2, 0, 0), (3, 2, 1)], &["refused 19 I 00003"]),
        (&[(1, 10, 255), (4, 0, 0)], &["refused 22 R 00001"]),
        // a cell that the chain does not come to
        (&[(0, 8, 0), (1, 0, 0)], &[H]),
        (&[(4, 2, 0), (5, 0, 0)], &[H, C1, C4]),
        (
            &[(1, 2, 5), (4, 0, 0), (4, 1, 1), (4, 2, 9)],
            &[H, C1, C5, C3, C2],
        ),
    ];
    expect_all(&rt, rt.alloc(), CASES)
}

// The first byte of a note as it is shown.
#[test]
fn shown_bytes(rt: HostRuntime) -> Result<(), Fail> {
    const SHOWN: &[(u8, &'static str)] = &[
        (0x00, "\\00"),
        (0x0A, "\\0A"),
        (0x1F, "\\1F"),
        (0x20, " "),
        (0x21, "!"),
        (0x22, "\\22"),
        (0x23, "#"),
        (0x5B, "["),
        (0x5C, "\\5C"),
        (0x5D, "]"),
        (0x7E, "~"),
        (0x7F, "\\7F"),
        (0x80, "\\80"),
        (0xC3, "\\C3"),
        (0xFF, "\\FF"),
    ];
    for &(byte, shown) in SHOWN {
        let changes = [(4, 2, 0), (4, 4, byte)];
        let parts = [H, C1, N4, "\"", shown, "tage \\22two\\22\\00\"\n"];
        expect(&rt, rt.alloc(), 96, &changes, &parts)?;
    }
    Ok(())
}

// A label that begins behind byte 255 of its text.
#[test]
fn far_labels(rt: HostRuntime) -> Result<(), Fail> {
    let heap = rt.alloc();
    let mut job = Vec::new(heap);
    job.resize(256, b'-')?;
    job.extend_from_slice(b"place")?;
    let texts = Texts {
        job: &job,
        site: SITE,
    };
    for (place, length, wanted) in [
        (0, 5, "00001 transfer 0->1 \"place\"\n"),
        (4, 1, "00001 transfer 0->1 \"e\"\n"),
        (5, 0, "00001 transfer 0->1 \"\"\n"),
        (0, 6, "refused 22 R 00001"),
        (6, 0, "refused 22 R 00001"),
    ] {
        let changes = [(1, 2, 0), (1, 8, place), (1, 9, 1), (1, 10, length)];
        let image = changed(heap, &BASE, 96, &changes)?;
        let text = told(heap, &image, texts)?;
        let line = text.as_str().strip_prefix(H).unwrap_or(text.as_str());
        assert_eq!(rt; line, wanted, "place 256 + {place}, length {length}");
    }
    Ok(())
}

// The longest image: 2,047 notes, from the last cell to the first; and with other indexes in cell 1.
#[test]
fn long_chains(rt: HostRuntime) -> Result<(), Fail> {
    let heap = rt.alloc();
    let texts = Texts {
        job: JOB,
        site: SITE,
    };
    let mut image = changed(heap, &BASE, 16, &[(0, 8, 0xFF), (0, 9, 7)])?;
    let mut wanted = String::new(heap);
    wanted.push_str(H)?;
    for cell in 1..2048u16 {
        let [low, high] = (cell - 1).to_le_bytes();
        image.extend_from_slice(&[2, 0, low, high])?;
        image.extend_from_slice(b"twelve bytes")?;
        let number = 2048 - cell;
        write!(wanted, "{number:05} note \"twelve bytes\"\n")?;
    }
    assert_eq!(rt; image.len(), 32_768);
    assert_eq!(rt; told(heap, &image, texts)?.as_str(), wanted.as_str());
    for (low, high, refusal) in [
        (0xFF, 7, "refused 19 I 00001"),
        (1, 0, "refused 19 I 00001"),
        (0, 8, "refused 18 I 00001"),
        (0xFF, 0xFF, "refused 18 I 00001"),
    ] {
        let image = changed(heap, &image, 32_768, &[(1, 2, low), (1, 3, high)])?;
        assert_eq!(rt; told(heap, &image, texts)?.as_str(), refusal);
    }
    Ok(())
}

// The records of the base by their kinds, and its transfers.
#[test]
fn readers(rt: HostRuntime) -> Result<(), Fail> {
    let heap = rt.alloc();
    let texts = Texts {
        job: JOB,
        site: SITE,
    };
    let mut records = Image::open(&BASE)?.records(texts);
    for wanted in [(1, 1), (4, 2), (5, 1), (3, 200), (2, 1)] {
        let (cell, record) = records.next_record()?.ok_or("too few records")?;
        assert_eq!(rt; (cell, record.kind()), wanted);
    }
    assert!(rt; records.next_record()?.is_none());
    let transfers = read_transfers(heap, &BASE, texts)?;
    assert_eq!(rt; transfers.len(), 3);
    for (transfer, wanted) in transfers.iter().zip([(0, 1), (1, 2), (2, 0)]) {
        assert_eq!(rt; (transfer.sender, transfer.receiver), wanted);
    }
    Ok(())
}

// The cells of the chain, whatever else is in them; a refusal is told again, and the reader stays where it is.
#[test]
fn cells_and_refusals(rt: HostRuntime) -> Result<(), Fail> {
    let heap = rt.alloc();
    let texts = Texts {
        job: JOB,
        site: SITE,
    };
    let image = changed(heap, &BASE, 96, &[(5, 0, 0), (2, 2, 4)])?;
    let image = Image::open(&image)?;
    let mut cells = image.cells();
    for wanted in [1, 4, 5, 3, 2] {
        let (number, _cell) = cells.next_cell()?.ok_or("too few cells")?;
        assert_eq!(rt; number, wanted);
    }
    assert!(rt; cells.next_cell() == Err(ImageRefusal::Visited(2)));
    assert!(rt; cells.next_cell() == Err(ImageRefusal::Visited(2)));
    let mut records = image.records(texts);
    for wanted in [1, 4] {
        let (number, _record) = records.next_record()?.ok_or("too few records")?;
        assert_eq!(rt; number, wanted);
    }
    for _again in 0..2 {
        match records.next_record() {
            Err(refusal) => assert_eq!(rt; refusal, ImageRefusal::Kind(5)),
            Ok(_) => return Err(Fail::new("a record where none is sound")),
        }
    }
    Ok(())
}
