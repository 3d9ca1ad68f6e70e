// The calls of a list, given to a book one after the other.
ghost use Rattle.std.specs.Prelude.{◌≡◌, ℕ, ◌+◌, List, [], ◌∷◌, ◌++◌, map, take, length, vec_items, vec_len, OnOk, IfOk, IfErr};
ghost use Rattle.audit.specs.History.{Told, History};
ghost use Rattle.audit.specs.Calls.{asked, told, sheet_in};
ghost use Rattle.audit.specs.States.{state_of, KindAndMeters, kind_and_meters, Agrees};
ghost use Rattle.audit.specs.Replays.{IsReplayed};

use crate::asking::ask;
use crate::call::{Answer, Call};
use crate::states::Book;
use cabinet::kind::Cabinet;
use lines::arranger::Arranger;
use std::alloc::{AllocError, Global};

// Puts an answer last, with the bytes of its sheet.
fn push_answer(
    heap: Global,
    answers: &mut Vec<Answer<Vec<u8>>>,
    answer: Answer<usize>,
    buffer: &[u8],
) -> Result<(), AllocError>
    ensures told { OnOk result
        (map (told vec_items) answers.new.items ≡ map (told vec_items) answers.old.items ++ (told (sheet_in buffer.now) answer ∷ [])) }
    ensures each { OnOk result (vec_len answers.new ≡ vec_len answers.old + 1) }
{
    let kept = answer.with_sheet(heap, buffer)?;
    answers.push(kept)?;
    Ok(())
}

// Gives a book the calls of a list from the first to the last, with one buffer for all sheets. Hands back the book, and what each
// call answered. Where memory for an answer runs out, no further call is given, and the answers are lost; the book is handed back
// all the same, and agrees with the calls that it was given: some first part of the list, the contract says.
pub fn replay<K: Cabinet, A: Arranger, B: Arranger>(
    heap: Global,
    mut book: Book<K, A, B>,
    calls: &[Call<'_>],
    buffer: &mut [u8],
) -> (Book<K, A, B>, Result<Vec<Answer<Vec<u8>>>, AllocError>)
    ensures each { IfOk result.1 (λ answers. vec_len answers ≡ length calls.now) }
    ensures ok { (first : KindAndMeters K) (h : History) → Agrees K.meaning A.shows B.shows first h book →
        IfOk result.1 (λ answers.
        IsReplayed K.meaning A.served first h
        (map (asked (length buffer.old)) calls.now) (map (told vec_items) answers.items)
        (state_of result.0) (kind_and_meters A.shows B.shows result.0)) }
    ensures err { (first : KindAndMeters K) (h : History) → Agrees K.meaning A.shows B.shows first h book →
        IfErr result.1 (λ _. (k : ℕ) × (answers : List Told) ×
        IsReplayed K.meaning A.served first h
        (map (asked (length buffer.old)) (take k calls.now)) answers
        (state_of result.0) (kind_and_meters A.shows B.shows result.0)) }
{
    let mut answers = Vec::new(heap);
    for call in calls {
        let (next, answer) = ask(book, *call, buffer);
        book = next;
        if let Err(error) = push_answer(heap, &mut answers, answer, buffer) {
            return (book, Err(error));
        }
    }
    (book, Ok(answers))
}
