// What is printed of a call, of an answer, and of the meters.
use crate::images::image_name;
use audit::{Answer, Book, Call};
use cabinet::kind::Cabinet;
use crossbar::digits::Hex;
use lines::arranger::Arranger;
use ports::sizes::Sizes;
use ports::transfer::Transfer;
use std::io;

// Prints the name of an image that is loaded, and how long the text is that goes with it.
fn print_load(rt: &HostRuntime, name: &str, length: usize) -> io::Result<()> {
    print!(rt; "load {name} with {length} bytes of text")
}

// Prints a call and what it is handed, a sheet with the length of the buffer, with no end of the line.
pub(crate) fn print_call(rt: &HostRuntime, call: Call<'_>, room: usize) -> io::Result<()> {
    match call {
        Call::Fit(Sizes { m, n }, rounds) => print!(rt; "fit m {m} n {n} R {rounds}"),
        Call::Book(Transfer { sender, receiver }) => print!(rt; "book {sender}->{receiver}"),
        Call::Cancel(ticket) => print!(rt; "cancel {ticket}"),
        Call::Load(image, texts) => print_load(rt, image_name(image), texts.job.len()),
        Call::Need => print!(rt; "need"),
        Call::Issue => print!(rt; "issue"),
        Call::Seat(ticket) => print!(rt; "seat {ticket}"),
        Call::Header(ticket) => print!(rt; "header {ticket}"),
        Call::Sheet(round) => print!(rt; "sheet {round} in {room} bytes"),
        Call::Reopen => print!(rt; "reopen"),
    }
}

// Prints the three bytes of a header.
fn print_header(rt: &HostRuntime, header: (u8, u8, u8)) -> io::Result<()> {
    let (first, second, third) = (Hex(header.0), Hex(header.1), Hex(header.2));
    println!(rt; ": {first} {second} {third}")
}

// Prints the length of a sheet, and below it the sheet.
fn print_sheet(rt: &HostRuntime, sheet: &[u8]) -> io::Result<()> {
    println!(rt; ": {} bytes", sheet.len())?;
    rt.write_all(sheet)
}

// Prints an answer to the end of the line, and the lines of a sheet below it.
pub(crate) fn print_answer(rt: &HostRuntime, answer: &Answer<Vec<u8>>) -> io::Result<()> {
    match answer {
        Answer::Fit(Ok(())) | Answer::Issue | Answer::Reopen => println!(rt; ": done"),
        Answer::Fit(Err(refusal)) => println!(rt; ": {refusal}"),
        Answer::Book(Ok(ticket)) => println!(rt; ": ticket {ticket}"),
        Answer::Book(Err(refusal)) => println!(rt; ": {refusal}"),
        Answer::Cancel(Ok((sender, receiver))) => println!(rt; ": {sender}->{receiver}"),
        Answer::Load(Ok((first, count))) => println!(rt; ": {count} from ticket {first}"),
        Answer::Load(Err(refusal)) => println!(rt; ": {refusal}"),
        Answer::Need(rounds) => println!(rt; ": {rounds}"),
        Answer::Seat(Ok((round, spine))) => println!(rt; ": round {round} spine {spine}"),
        Answer::Header(Ok(header)) => print_header(rt, *header),
        Answer::Cancel(Err(refusal)) | Answer::Seat(Err(refusal)) | Answer::Header(Err(refusal)) =>
            println!(rt; ": {refusal}"),
        Answer::Sheet(Ok(sheet)) => print_sheet(rt, sheet),
        Answer::Sheet(Err(refusal)) => println!(rt; ": {refusal}"),
        Answer::NotPermitted => println!(rt; ": not permitted"),
    }
}

// Prints what the meters of a book show.
pub(crate) fn print_meters<K: Cabinet, A: Arranger, B: Arranger>(
    rt: &HostRuntime,
    book: &Book<K, A, B>,
) -> io::Result<()> {
    let (rounds, spines) = match book {
        Book::Draft(draft) => (
            draft.round_arranger().meter(),
            draft.spine_arranger().meter(),
        ),
        Book::Timetable(timetable) => (
            timetable.round_arranger().meter(),
            timetable.spine_arranger().meter(),
        ),
    };
    println!(rt; "meters: round arranger {rounds}, spine arranger {spines}")
}
