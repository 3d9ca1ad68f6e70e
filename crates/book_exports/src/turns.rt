// Turns of a book: all of the transfers are booked and get seats, and all are cancelled again.
ghost use Rattle.std.specs.Prelude.{◌≡◌, ◌+◌, ◌-◌, ◌<◌, ◌≤◌, [], length, Ok, Err, IfOk, MatchOption, MatchResult};
ghost use Rattle.timetables.specs.Timetables.{ClashFree};
ghost use Rattle.crossbar.specs.Refusals.{told_by};
ghost use Rattle.bookings.specs.Refusals.{booking_refusal};
ghost use Rattle.bookings.specs.Model.{booking_at};
ghost use Rattle.book.specs.Books.{drafted, issued, seats};
ghost use Rattle.book.specs.Calls.{Seated};
ghost use Rattle.book_exports.specs.Filling.{book_all, emptied, turned, turns, filling_due, refusal_of, turn_refusal};

use crate::refusal::TurnRefusal;
use book::draft::Draft;
use book::timetable::Timetable;
use bookings::refusal::BookRefusal;
use cabinet::kind::Cabinet;
use lines::arranger::Arranger;
use ports::sizes::Sizes;
use ports::transfer::Transfer;

// Books the transfers one after the other; the first refusal ends it.
#[tactic(auto, using(crate::proofs::Turning::booking))]
fn book_all<K: Cabinet, A: Arranger, B: Arranger>(
    draft: &mut Draft<K, A, B>,
    transfers: &[Transfer],
) -> Result<(), BookRefusal>
    ensures { MatchResult result (λ _. book_all (drafted draft.old) transfers.now ≡ Ok (drafted draft.new)) (λ e. book_all (drafted draft.old) transfers.now ≡ Err (booking_refusal e)) }
{
    for transfer in transfers {
        draft.book(*transfer)?;
    }
    Ok(())
}

// The ticket of the last live transfer; none where none is live.
fn last_ticket<K: Cabinet, A: Arranger, B: Arranger>(draft: &Draft<K, A, B>) -> Option<u16>
    ensures { let xs = (drafted draft.now).live in MatchOption result (length xs ≡ 0) (λ k. (0 < length xs) × (k ≡ (booking_at xs (length xs - 1)).ticket)) }
{
    let booking = draft.table().live().last()?;
    Some(booking.ticket)
}

// Cancels all live transfers, the last ticket first.
#[tactic(auto, using(crate::proofs::Turning::cancelling))]
fn cancel_all<K: Cabinet, A: Arranger, B: Arranger>(draft: &mut Draft<K, A, B>)
    ensures { drafted draft.new ≡ emptied (drafted draft.old) }
{
    while let Some(ticket) = last_ticket(draft) {
        let _nodes = draft.cancel(ticket);
    }
}

// Books the transfers and gives them seats.
fn seat_all<K: Cabinet + Drop, A: Arranger + Drop, B: Arranger + Drop>(
    draft: Draft<K, A, B>,
    transfers: &[Transfer],
) -> Result<Timetable<K, A, B>, BookRefusal>
    ensures { MatchResult result (λ t. (book_all (drafted draft) transfers.now ≡ Ok (issued t)) × Seated K.meaning (issued t) (seats t)) (λ e. book_all (drafted draft) transfers.now ≡ Err (booking_refusal e)) }
{
    let mut draft = draft;
    book_all(&mut draft, transfers)?;
    Ok(draft.issue())
}

// One turn.
#[tactic(auto, using(crate::proofs::Turning::turning))]
fn turn<K: Cabinet + Drop, A: Arranger + Drop, B: Arranger + Drop>(
    draft: Draft<K, A, B>,
    transfers: &[Transfer],
) -> Result<Draft<K, A, B>, BookRefusal>
    ensures { MatchResult result (λ d. turned (drafted draft) transfers.now ≡ Ok (drafted d)) (λ e. turned (drafted draft) transfers.now ≡ Err (booking_refusal e)) }
{
    let mut draft = seat_all(draft, transfers)?.reopen();
    cancel_all(&mut draft);
    Ok(draft)
}

// So many turns; the first refusal ends them.
#[tactic(auto, using(crate::proofs::Turning::repeating))]
fn run_turns<K: Cabinet + Drop, A: Arranger + Drop, B: Arranger + Drop>(
    draft: Draft<K, A, B>,
    transfers: &[Transfer],
    times: u8,
) -> Result<Draft<K, A, B>, BookRefusal>
    ensures { MatchResult result (λ d. turns times (drafted draft) transfers.now ≡ Ok (drafted d)) (λ e. turns times (drafted draft) transfers.now ≡ Err (booking_refusal e)) }
{
    let mut draft = draft;
    for _done in 0..times {
        draft = turn(draft, transfers)?;
    }
    Ok(draft)
}

// One turn more after so many, up to the timetable of it.
fn seat_last<K: Cabinet + Drop, A: Arranger + Drop, B: Arranger + Drop>(
    draft: Draft<K, A, B>,
    transfers: &[Transfer],
    before: u8,
) -> Result<Timetable<K, A, B>, BookRefusal>
    requires { (drafted draft).live ≡ [] }
    ensures answer { MatchResult result (λ t. turns (before + 1) (drafted draft) transfers.now ≡ Ok (emptied (issued t))) (λ e. turns (before + 1) (drafted draft) transfers.now ≡ Err (booking_refusal e)) }
    ensures seats { let b = drafted draft in IfOk result (λ t. ClashFree (K.meaning b.m b.n) b.n b.rounds transfers.now (seats t)) }
{
    let draft = run_turns(draft, transfers, before)?;
    seat_all(draft, transfers)
}

// Sets the sizes and the number of rounds, and then has so many turns; the timetable of the last turn, or none where there is
// no turn. The last one is not taken back.
pub(crate) fn last_timetable<K: Cabinet + Drop, A: Arranger + Drop, B: Arranger + Drop>(
    draft: Draft<K, A, B>,
    sizes: Sizes,
    rounds: u8,
    transfers: &[Transfer],
    times: u8,
) -> Result<Option<Timetable<K, A, B>>, TurnRefusal>
    ensures answer { refusal_of (told_by turn_refusal result) ≡ filling_due (drafted draft) (A.served rounds) sizes.m sizes.n rounds times transfers.now }
    ensures seats { IfOk result (λ o. MatchOption o (times ≡ 0) (λ t. (1 ≤ times) × ClashFree (K.meaning sizes.m sizes.n) sizes.n rounds transfers.now (seats t))) }
{
    let mut draft = draft;
    draft.fit(sizes, rounds)?;
    let Some(before) = times.checked_sub(1) else {
        return Ok(None);
    };
    let timetable = seat_last(draft, transfers, before)?;
    Ok(Some(timetable))
}
