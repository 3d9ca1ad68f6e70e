// One call given to a book, and the law that it keeps. The calls of a draft and those of a timetable each have a function, which
// has a case for every call, also for those of the other state; their clauses hold at each case.
ghost use Rattle.std.specs.Prelude.{◌≡◌, List, ℕ, [], ◌∷◌, ◌++◌};
ghost use Rattle.book.specs.Books.{drafted, issued, seats};
ghost use Rattle.audit.specs.Calls.{history_entry, IsWritten};
ghost use Rattle.audit.specs.History.{History};
ghost use Rattle.audit.specs.Law.{InLimits, Lawful, Due};
ghost use Rattle.audit.specs.States.{in_draft, in_timetable, state_of, book_of, KindAndMeters, kind_and_meters, draft_kind_and_meters, timetable_kind_and_meters, Agrees};
ghost use Rattle.audit.specs.Inner.{Step, kind_and_meters_after};

use crate::call::{Answer, Call};
use crate::states::Book;
use book::draft::Draft;
use book::timetable::Timetable;
use cabinet::kind::Cabinet;
use lines::arranger::Arranger;
use sheets::sheet::sheet;

// Gives a draft one call. It writes to no buffer, so the clauses are for any bytes, which stay. A call of a timetable is not
// permitted and changes nothing.
#[tactic(auto, using(crate::proofs::Stepping::a_draft))]
fn ask_draft<K: Cabinet, A: Arranger, B: Arranger>(
    mut draft: Draft<K, A, B>,
    call: Call<'_>,
) -> (Book<K, A, B>, Answer<usize>)
    ensures step { (xs : List ℕ) → let x = history_entry call.entry result.1 xs xs in
        Step K.meaning A.served (in_draft (drafted draft)) x.0 x.1 (state_of result.0) }
    ensures limits { InLimits A.served (book_of (state_of result.0)) }
    ensures parts { (xs : List ℕ) → let x = history_entry call.entry result.1 xs xs in
        kind_and_meters A.shows B.shows result.0 ≡ kind_and_meters_after (drafted draft) (draft_kind_and_meters A.shows B.shows draft) x.0 x.1 }
    ensures buffer { (xs : List ℕ) → IsWritten result.1 xs xs }
{
    match call {
        Call::Fit(sizes, rounds) => {
            let answer = draft.fit(sizes, rounds);
            (Book::Draft(draft), Answer::Fit(answer))
        }
        Call::Book(transfer) => {
            let answer = draft.book(transfer);
            (Book::Draft(draft), Answer::Book(answer))
        }
        Call::Cancel(ticket) => {
            let answer = draft.cancel(ticket);
            (Book::Draft(draft), Answer::Cancel(answer))
        }
        Call::Load(image, texts) => {
            let answer = draft.load(image, texts);
            (Book::Draft(draft), Answer::Load(answer))
        }
        Call::Need => {
            let rounds = draft.need();
            (Book::Draft(draft), Answer::Need(rounds))
        }
        Call::Issue => (Book::Timetable(draft.issue()), Answer::Issue),
        Call::Seat(_) | Call::Header(_) | Call::Sheet(_) | Call::Reopen => {
            (Book::Draft(draft), Answer::NotPermitted)
        }
    }
}

// Gives a timetable one call. A call of a draft is not permitted and changes nothing.
#[tactic(auto, using(crate::proofs::Stepping::a_timetable))]
fn ask_timetable<K: Cabinet, A: Arranger, B: Arranger>(
    timetable: Timetable<K, A, B>,
    call: Call<'_>,
    buffer: &mut [u8],
) -> (Book<K, A, B>, Answer<usize>)
    ensures step { let x = history_entry call.entry result.1 buffer.old buffer.new in
        Step K.meaning A.served (in_timetable (issued timetable) (seats timetable)) x.0 x.1 (state_of result.0) }
    ensures limits { InLimits A.served (book_of (state_of result.0)) }
    ensures parts { let x = history_entry call.entry result.1 buffer.old buffer.new in
        kind_and_meters A.shows B.shows result.0 ≡ kind_and_meters_after (issued timetable) (timetable_kind_and_meters A.shows B.shows timetable) x.0 x.1 }
    ensures buffer { IsWritten result.1 buffer.old buffer.new }
{
    match call {
        Call::Seat(ticket) => {
            let answer = timetable.seat(ticket);
            (Book::Timetable(timetable), Answer::Seat(answer))
        }
        Call::Header(ticket) => {
            let answer = timetable.header(ticket);
            (Book::Timetable(timetable), Answer::Header(answer))
        }
        Call::Sheet(round) => {
            let answer = sheet(&timetable, round, buffer);
            (Book::Timetable(timetable), Answer::Sheet(answer))
        }
        Call::Reopen => (Book::Draft(timetable.reopen()), Answer::Reopen),
        Call::Fit(..)
        | Call::Book(_)
        | Call::Cancel(_)
        | Call::Load(..)
        | Call::Need
        | Call::Issue => (Book::Timetable(timetable), Answer::NotPermitted),
    }
}

// Gives a book one call; the clauses relate its state before to that after.
fn step<K: Cabinet, A: Arranger, B: Arranger>(
    book: Book<K, A, B>,
    call: Call<'_>,
    buffer: &mut [u8],
) -> (Book<K, A, B>, Answer<usize>)
    ensures step { let x = history_entry call.entry result.1 buffer.old buffer.new in
        Step K.meaning A.served (state_of book) x.0 x.1 (state_of result.0) }
    ensures limits { InLimits A.served (book_of (state_of result.0)) }
    ensures parts { let x = history_entry call.entry result.1 buffer.old buffer.new in
        kind_and_meters A.shows B.shows result.0 ≡ kind_and_meters_after (book_of (state_of book)) (kind_and_meters A.shows B.shows book) x.0 x.1 }
    ensures buffer { IsWritten result.1 buffer.old buffer.new }
{
    match book {
        Book::Draft(draft) => ask_draft(draft, call),
        Book::Timetable(timetable) => ask_timetable(timetable, call, buffer),
    }
}

// Gives a book one call. A call of the other state is not permitted and changes nothing. A sheet is written to the front of the
// buffer, and its length is told. Where the book agrees with a history, the book handed back agrees with that history and this
// call added; and the longer history is lawful, or due, where the shorter one is.
pub fn ask<K: Cabinet, A: Arranger, B: Arranger>(
    book: Book<K, A, B>,
    call: Call<'_>,
    buffer: &mut [u8],
) -> (Book<K, A, B>, Answer<usize>)
    ensures agrees { let x = history_entry call.entry result.1 buffer.old buffer.new in
        (first : KindAndMeters K) (h : History) → Agrees K.meaning A.shows B.shows first h book →
        Agrees K.meaning A.shows B.shows first (h ++ (x ∷ [])) result.0 }
    ensures lawful { let x = history_entry call.entry result.1 buffer.old buffer.new in
        (first : KindAndMeters K) (h : History) → Agrees K.meaning A.shows B.shows first h book →
        Lawful K.meaning A.served h → Lawful K.meaning A.served (h ++ (x ∷ [])) }
    ensures due { let x = history_entry call.entry result.1 buffer.old buffer.new in
        (first : KindAndMeters K) (h : History) → Agrees K.meaning A.shows B.shows first h book →
        Due A.served h → Due A.served (h ++ (x ∷ [])) }
    ensures buffer { IsWritten result.1 buffer.old buffer.new }
{
    step(book, call, buffer)
}
