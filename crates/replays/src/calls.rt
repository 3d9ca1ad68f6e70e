// The list of calls, and the calls that come after it.
use crate::images::{FROM_NODE_0, LABELLED, NO_TEXTS, TEXTS};
use audit::Call;
use ports::sizes::Sizes;
use ports::transfer::Transfer;

// A draft is filled and issued, what the timetable has is asked for, and it is reopened, changed and issued once more. Some
// calls are refused, and some are not permitted.
pub(crate) const CALLS: [Call<'static>; 36] = [
    Call::Seat(1),
    Call::Fit(Sizes { m: 0, n: 2 }, 2),
    Call::Fit(Sizes { m: 2, n: 2 }, 2),
    Call::Book(Transfer {
        sender: 0,
        receiver: 2,
    }),
    Call::Book(Transfer {
        sender: 0,
        receiver: 3,
    }),
    Call::Book(Transfer {
        sender: 0,
        receiver: 1,
    }),
    Call::Book(Transfer {
        sender: 4,
        receiver: 1,
    }),
    Call::Cancel(2),
    Call::Cancel(2),
    Call::Need,
    Call::Load(&LABELLED, TEXTS),
    Call::Load(&FROM_NODE_0, NO_TEXTS),
    Call::Load(&LABELLED, NO_TEXTS),
    Call::Book(Transfer {
        sender: 3,
        receiver: 2,
    }),
    Call::Need,
    Call::Fit(Sizes { m: 2, n: 2 }, 3),
    Call::Reopen,
    Call::Issue,
    Call::Book(Transfer {
        sender: 1,
        receiver: 1,
    }),
    Call::Seat(1),
    Call::Header(1),
    Call::Seat(2),
    Call::Seat(5),
    Call::Header(5),
    Call::Sheet(0),
    Call::Sheet(1),
    Call::Sheet(2),
    Call::Reopen,
    Call::Seat(1),
    Call::Cancel(1),
    Call::Book(Transfer {
        sender: 2,
        receiver: 2,
    }),
    Call::Issue,
    Call::Seat(1),
    Call::Seat(6),
    Call::Sheet(0),
    Call::Sheet(1),
];

// These are given with a buffer of 40 bytes: the sheet of round 0 is longer, that of round 1 is not. The timetable is then
// reopened, loses one transfer, and is issued a third time.
pub(crate) const MORE_CALLS: [Call<'static>; 7] = [
    Call::Seat(6),
    Call::Sheet(0),
    Call::Sheet(1),
    Call::Need,
    Call::Reopen,
    Call::Cancel(6),
    Call::Issue,
];
