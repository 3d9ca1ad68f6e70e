// A book in either state, and how a new one is made. A new book agrees with the empty history, and that keeps the law.
ghost use Rattle.std.specs.Prelude.{◌≡◌, [], IfOk};
ghost use Rattle.bookings.specs.Model.{new_book};
ghost use Rattle.book.specs.Books.{drafted};
ghost use Rattle.audit.specs.Law.{Lawful, Due};
ghost use Rattle.audit.specs.States.{in_draft, state_of, kind_with_meters, draft_kind_and_meters, kind_and_meters, Agrees};

use book::draft::Draft;
use book::timetable::Timetable;
use cabinet::kind::Cabinet;
use lines::arranger::Arranger;
use std::alloc::{AllocError, Global};

// A book that takes bookings, or one whose transfers have seats.
#[derive(Drop)]
pub enum Book<K: Cabinet, A: Arranger, B: Arranger> {
    Draft(Draft<K, A, B>),
    Timetable(Timetable<K, A, B>),
}

impl<K: Cabinet, A: Arranger, B: Arranger> Book<K, A, B> {
    // A draft as a book in either state.
    pub fn from_draft(draft: Draft<K, A, B>) -> Book<K, A, B>
        ensures state { state_of result ≡ in_draft (drafted draft) }
        ensures parts { kind_and_meters A.shows B.shows result ≡ draft_kind_and_meters A.shows B.shows draft }
        ensures agrees { drafted draft ≡ new_book →
            Agrees K.meaning A.shows B.shows (draft_kind_and_meters A.shows B.shows draft) [] result }
        ensures lawful { Lawful K.meaning A.served [] }
        ensures due { Due A.served [] }
    {
        Book::Draft(draft)
    }
}

impl<K: Cabinet + Drop, A: Arranger + Drop, B: Arranger + Drop> Book<K, A, B> {
    // A new book. What it is handed is dropped where memory is short.
    pub fn new(
        heap: Global,
        kind: K,
        round_arranger: A,
        spine_arranger: B,
    ) -> Result<Book<K, A, B>, AllocError>
        ensures state { IfOk result (λ book. state_of book ≡ in_draft new_book) }
        ensures agrees { let first = kind_with_meters kind (A.shows round_arranger) (B.shows spine_arranger) in
            IfOk result (λ book. Agrees K.meaning A.shows B.shows first [] book) }
        ensures lawful { Lawful K.meaning A.served [] }
        ensures due { Due A.served [] }
    {
        let draft = Draft::new(heap, kind, round_arranger, spine_arranger)?;
        Ok(Book::from_draft(draft))
    }
}
