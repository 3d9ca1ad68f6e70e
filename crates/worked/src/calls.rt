// What is printed of the calls of a book, and of its reports.
use book::draft::Draft;
use book::timetable::Timetable;
use bookings::booking::Booking;
use bookings::table::Table;
use cabinet::kind::Cabinet;
use crossbar::digits::Hex;
use image::labels::Texts;
use lines::arranger::Arranger;
use ports::sizes::Sizes;
use ports::transfer::Transfer;
use reports::fullest::fullest;
use reports::heaviest::heaviest;
use reports::loads::{NodeLoad, RoundLoad, TransferSide};
use sheets::sheet::sheet;

// Sets sizes and rounds and prints the answer.
pub(crate) fn fit<K: Cabinet, A: Arranger, B: Arranger>(
    rt: &HostRuntime,
    draft: &mut Draft<K, A, B>,
    sizes: Sizes,
    rounds: u8,
) -> anyhow::Result<()> {
    let Sizes { m, n } = sizes;
    match draft.fit(sizes, rounds) {
        Ok(()) => println!(rt; "fit m {m} n {n} R {rounds}")?,
        Err(refusal) => println!(rt; "fit m {m} n {n} R {rounds}: {refusal}")?,
    }
    Ok(())
}

// Books a transfer and prints the answer.
pub(crate) fn book<K: Cabinet, A: Arranger, B: Arranger>(
    rt: &HostRuntime,
    draft: &mut Draft<K, A, B>,
    transfer: Transfer,
) -> anyhow::Result<()> {
    let Transfer { sender, receiver } = transfer;
    match draft.book(transfer) {
        Ok(ticket) => println!(rt; "book {sender}->{receiver}: ticket {ticket}")?,
        Err(refusal) => println!(rt; "book {sender}->{receiver}: {refusal}")?,
    }
    Ok(())
}

// Cancels a ticket and prints the answer.
pub(crate) fn cancel<K: Cabinet, A: Arranger, B: Arranger>(
    rt: &HostRuntime,
    draft: &mut Draft<K, A, B>,
    ticket: u16,
) -> anyhow::Result<()> {
    match draft.cancel(ticket) {
        Ok((sender, receiver)) => println!(rt; "cancel {ticket}: {sender}->{receiver}")?,
        Err(refusal) => println!(rt; "cancel {ticket}: {refusal}")?,
    }
    Ok(())
}

// Loads an image whose labels are parts of two empty texts, and prints the answer.
pub(crate) fn load<K: Cabinet, A: Arranger, B: Arranger>(
    rt: &HostRuntime,
    draft: &mut Draft<K, A, B>,
    name: &str,
    image: &[u8],
) -> anyhow::Result<()> {
    let texts = Texts {
        job: &[],
        site: &[],
    };
    match draft.load(image, texts) {
        Ok((first, count)) => println!(rt; "load {name}: {count} from ticket {first}")?,
        Err(refusal) => println!(rt; "load {name}: {refusal}")?,
    }
    Ok(())
}

// Prints the seat and the header of a live transfer.
pub(crate) fn show<K: Cabinet, A: Arranger, B: Arranger>(
    rt: &HostRuntime,
    timetable: &Timetable<K, A, B>,
    booking: Booking,
) -> anyhow::Result<()> {
    let Booking { ticket, transfer } = booking;
    let Transfer { sender, receiver } = transfer;
    match (timetable.seat(ticket), timetable.header(ticket)) {
        (Ok((round, spine)), Ok((first, second, third))) => {
            let (first, second, third) = (Hex(first), Hex(second), Hex(third));
            println!(rt;
                "ticket {ticket} {sender}->{receiver}: round {round} spine {spine} header {first} {second} {third}"
            )?;
        }
        (Err(refusal), _) | (_, Err(refusal)) => println!(rt; "ticket {ticket}: {refusal}")?,
    }
    Ok(())
}

// Prints the most used node of a book in either state.
pub(crate) fn show_heaviest(rt: &HostRuntime, table: &Table) -> anyhow::Result<()> {
    let Some(NodeLoad { side, node, count }) = heaviest(table) else {
        println!(rt; "heaviest: none")?;
        return Ok(());
    };
    match side {
        TransferSide::Sending => println!(rt; "heaviest: node {node} sends {count}")?,
        TransferSide::Receiving => println!(rt; "heaviest: node {node} receives {count}")?,
    }
    Ok(())
}

// Prints the fullest round of a timetable.
pub(crate) fn show_fullest<K: Cabinet, A: Arranger, B: Arranger>(
    rt: &HostRuntime,
    timetable: &Timetable<K, A, B>,
) -> anyhow::Result<()> {
    let RoundLoad { round, count } = fullest(timetable);
    println!(rt; "fullest: round {round} has {count}")?;
    Ok(())
}

// Prints the sheet of a round, which the buffer is to hold, or why it is refused.
pub(crate) fn show_sheet<K: Cabinet, A: Arranger, B: Arranger>(
    rt: &HostRuntime,
    timetable: &Timetable<K, A, B>,
    round: u8,
    buffer: &mut [u8],
) -> anyhow::Result<()> {
    match sheet(timetable, round, buffer) {
        Ok(length) => rt.write_all(&buffer[..length])?,
        Err(refusal) => println!(rt; "sheet {round}: {refusal}")?,
    }
    Ok(())
}
