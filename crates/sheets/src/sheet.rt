// The text of a round.
ghost use Rattle.std.specs.Prelude.{◌≡◌, ◌*◌, ◌<◌, ◌≤◌, ◌++◌, IfOk, length, drop, map, replicate, Some, None};
ghost use Rattle.std.specs.List.{flat_map, range_with_len};
ghost use Rattle.crossbar.specs.Refusals.{told_by};
ghost use Rattle.timetables.specs.Timetables.{in_round};
ghost use Rattle.bookings.specs.Model.{transfers};
ghost use Rattle.book.specs.Books.{issued, seats};
ghost use Rattle.sheets.specs.Refusals.{sheet_refusal};
ghost use Rattle.sheets.specs.Sheets.{head_text, row_text, row_at, sent_by, HasRows, sheet_text, sheet_due, sheet_left};
ghost use Rattle.sheets.specs.Steps.{rows_at, written_over, PlacesBelow, RoundNoted};

use crate::digits::{hex, three_digits, two_digits};
use crate::refusal::SheetRefusal;
use crate::senders::note_senders;
use book::timetable::Timetable;
use cabinet::kind::Cabinet;
use lines::arranger::Arranger;
use ports::transfer::Transfer;

// The head line of a round with so many transfers.
fn head_line(round: u8, count: u16) -> [u8; 8]
    requires round { round < 100 }
    requires count { count < 1000 }
    ensures { result ≡ head_text round count }
{
    let [k1, k2] = two_digits(round);
    let [c1, c2, c3] = three_digits(count);
    [b'R', k1, k2, b' ', c1, c2, c3, b'\n']
}

// The row of a transfer with its spine and its header.
#[tactic(auto, unfolding(crate::specs::Sheets::row_text))]
fn row(transfer: Transfer, spine: u8, header: (u8, u8, u8)) -> [u8; 20]
    requires sender { transfer.sender < 1000 }
    requires receiver { transfer.receiver < 1000 }
    requires spine { spine < 100 }
    ensures { result ≡ row_text transfer spine header }
{
    let [s1, s2, s3] = three_digits(transfer.sender);
    let [r1, r2, r3] = three_digits(transfer.receiver);
    let [j1, j2] = two_digits(spine);
    let ([a1, a2], [b1, b2], [c1, c2]) = (hex(header.0), hex(header.1), hex(header.2));
    [
        s1, s2, s3, b'>', r1, r2, r3, b' ', j1, j2, b' ', a1, a2, b' ', b1, b2, b' ', c1, c2, b'\n',
    ]
}

// The row of the transfer at a place.
fn row_at<K: Cabinet, A: Arranger, B: Arranger>(
    timetable: &Timetable<K, A, B>,
    place: u16,
) -> [u8; 20]
    requires { place < length (issued timetable.now).live }
    ensures { result ≡ row_at K.meaning (issued timetable.now) (seats timetable.now) (Some place) }
{
    let booking = timetable.table().live()[usize::from(place)];
    let seat = timetable.seats()[usize::from(place)];
    let Ok(header) = timetable.header(booking.ticket) else {
        unreachable()
    };
    row(booking.transfer, seat.spine, header)
}

// Writes the rows of the transfers at the places of the nodes, one after the other.
#[tactic(auto, using(crate::proofs::Writing::writing))]
fn write_rows<K: Cabinet, A: Arranger, B: Arranger>(
    timetable: &Timetable<K, A, B>,
    places: &[Option<u16>],
    rows: &mut [u8],
)
    requires low { PlacesBelow places.now (length (issued timetable.now).live) }
    requires room { length (rows_at K.meaning (issued timetable.now) (seats timetable.now) places.now) ≤ length rows.old }
    ensures { let t = timetable.now in rows.new ≡ written_over (rows_at K.meaning (issued t) (seats t) places.now) rows.old }
{
    let mut at = 0;
    for place in places {
        if let Some(place) = place {
            rows[at..at + 20].copy_from_slice(&row_at(timetable, *place));
            at += 20;
        }
    }
}

// Notes at each node the place of the transfer of a round that it sends, and answers how many transfers the round has.
fn note_round<K: Cabinet, A: Arranger, B: Arranger>(
    timetable: &Timetable<K, A, B>,
    round: u8,
    places: &mut [Option<u16>],
) -> u16
    requires { let b = issued timetable.now in places.old ≡ replicate (b.m * b.n) None }
    ensures { RoundNoted K.meaning (issued timetable.now) (seats timetable.now) round places.new result }
{
    note_senders(timetable.table().live(), timetable.seats(), round, places)
}

// Writes the sheet of a round that is there into the buffer and answers its length.
fn write_sheet<K: Cabinet, A: Arranger, B: Arranger>(
    timetable: &Timetable<K, A, B>,
    round: u8,
    places: &mut [Option<u16>],
    buffer: &mut [u8],
) -> Result<usize, SheetRefusal>
    requires round { round < (issued timetable.now).rounds }
    requires places { let b = issued timetable.now in places.old ≡ replicate (b.m * b.n) None }
    ensures answer { told_by sheet_refusal result ≡ sheet_due (issued timetable.now) (seats timetable.now) round (length buffer.old) }
    ensures buffer { buffer.new ≡ sheet_left K.meaning (issued timetable.now) (seats timetable.now) round buffer.old }
    ensures length { IfOk result (λ l. length (sheet_text K.meaning (issued timetable.now) (seats timetable.now) round) ≡ l) }
{
    let count = note_round(timetable, round, places);
    let length = 8 + 20 * usize::from(count);
    if buffer.len() < length {
        return Err(SheetRefusal::Buffer);
    }
    let (head, rows) = buffer.split_at_mut(8);
    head.copy_from_slice(&head_line(round, count));
    write_rows(timetable, places, rows);
    Ok(length)
}

// Writes the sheet of a round into the buffer and answers its length. The rest of the buffer stays as it was, and so does all
// of it where the sheet is refused.
pub fn sheet<K: Cabinet, A: Arranger, B: Arranger>(
    timetable: &Timetable<K, A, B>,
    round: u8,
    buffer: &mut [u8],
) -> Result<usize, SheetRefusal>
    ensures answer { told_by sheet_refusal result ≡ sheet_due (issued timetable.now) (seats timetable.now) round (length buffer.old) }
    ensures buffer { buffer.new ≡ sheet_left K.meaning (issued timetable.now) (seats timetable.now) round buffer.old }
    ensures length { IfOk result (λ l. length (sheet_text K.meaning (issued timetable.now) (seats timetable.now) round) ≡ l) }
    ensures rows { HasRows (issued timetable.now) (seats timetable.now) round }
{
    let table = timetable.table();
    if round >= table.rounds() {
        return Err(SheetRefusal::Round);
    }
    let sizes = table.sizes();
    let nodes = usize::from(sizes.m) * usize::from(sizes.n);
    let mut places = [None; 512];
    write_sheet(timetable, round, &mut places[..nodes], buffer)
}
