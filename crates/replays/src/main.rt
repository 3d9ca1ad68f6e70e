// replays: gives the calls of a list to a new book of the folded kind, rounds by chain and spines by Euler, and to one of the
// straight kind, the other way round. It prints each call with its answer. Then it goes on with each book: it gives it some more
// calls, one by one, with a shorter buffer, and prints what the meters show.
//
//   calls     the list, and the calls after it
//   images    the job images in it, and their names
//   printing  what is printed of a call, of an answer, and of the meters
#![tactic(auto)]

mod calls;
mod images;
mod printing;

use crate::calls::{CALLS, MORE_CALLS};
use crate::printing::{print_answer, print_call, print_meters};
use audit::{Book, ask, replay};
use cabinet::kind::Cabinet;
use chain::Chain;
use euler::arranger::Euler;
use kinds::folded::Folded;
use kinds::straight::Straight;
use lines::arranger::Arranger;

// Gives a book the calls of the list, and prints each with its answer.
fn show_list<K: Cabinet + Drop, A: Arranger + Drop, B: Arranger + Drop>(
    rt: &HostRuntime,
    book: Book<K, A, B>,
) -> anyhow::Result<Book<K, A, B>> {
    let mut buffer = [0; 100];
    let (book, answers) = replay(rt.alloc(), book, &CALLS, &mut buffer);
    for (call, answer) in CALLS.iter().zip(answers?.iter()) {
        print_call(rt, *call, buffer.len())?;
        print_answer(rt, answer)?;
    }
    Ok(book)
}

// Gives it the calls after the list one by one, and prints each with its answer.
fn show_more<K: Cabinet + Drop, A: Arranger + Drop, B: Arranger + Drop>(
    rt: &HostRuntime,
    mut book: Book<K, A, B>,
) -> anyhow::Result<Book<K, A, B>> {
    let mut buffer = [0; 40];
    for call in MORE_CALLS {
        let (next, answer) = ask(book, call, &mut buffer);
        book = next;
        print_call(rt, call, buffer.len())?;
        print_answer(rt, &answer.with_sheet(rt.alloc(), &buffer)?)?;
    }
    Ok(book)
}

// Makes a book, gives it all these calls, and prints what its meters show.
fn show<K: Cabinet + Drop, A: Arranger + Drop, B: Arranger + Drop>(
    rt: &HostRuntime,
    kind: K,
    round_arranger: A,
    spine_arranger: B,
) -> anyhow::Result<()> {
    let book = Book::new(rt.alloc(), kind, round_arranger, spine_arranger)?;
    let book = show_list(rt, book)?;
    let book = show_more(rt, book)?;
    print_meters(rt, &book)?;
    Ok(())
}

fn main(rt: HostRuntime) -> anyhow::Result<()> {
    let heap = rt.alloc();
    println!(rt; "folded, rounds by chain, spines by Euler")?;
    show(&rt, Folded, Chain::new(heap)?, Euler::new(heap)?)?;
    println!(rt; "straight, rounds by Euler, spines by chain")?;
    show(&rt, Straight, Euler::new(heap)?, Chain::new(heap)?)
}
