// Transfers from bytes, and seats into them, six bytes to a transfer: sender and receiver, each low byte first, then round and
// spine.
ghost use Rattle.std.specs.Prelude.{◌≡◌, ◌+◌, ◌*◌, ◌%◌, ◌<◌, ◌≤◌, map, length, IfOk, ◌==◌, slice_set};
ghost use Rattle.book_exports.specs.Seats.{transfer_in, transfers_in, SeatsPut, NodesKept};

use ports::transfer::Transfer;
use std::alloc::{AllocError, Global};
use timetables::seat::Seat;

// Whether the bytes are whole transfers.
pub(crate) fn are_whole(bytes: &[u8]) -> bool
    ensures { result ≡ (length bytes.now % 6 == 0) }
{
    bytes.len() % 6 == 0
}

// The transfer of six bytes.
fn as_transfer(cell: [u8; 6]) -> Transfer
    ensures { result ≡ transfer_in cell 0 }
{
    let [
        low_sender,
        high_sender,
        low_receiver,
        high_receiver,
        _round,
        _spine,
    ] = cell;
    Transfer {
        sender: u16::from_le_bytes([low_sender, high_sender]),
        receiver: u16::from_le_bytes([low_receiver, high_receiver]),
    }
}

// The transfer of each six bytes.
fn as_transfers(heap: Global, cells: &[[u8; 6]]) -> Result<Vec<Transfer>, AllocError>
    ensures { IfOk result (λ v. v.items ≡ map (λ cell. transfer_in cell 0) cells.now) }
{
    cells.iter().map(|cell| as_transfer(*cell)).collect(heap)
}

// The transfers of the bytes.
pub(crate) fn decode(heap: Global, bytes: &[u8]) -> Result<Vec<Transfer>, AllocError>
    ensures { IfOk result (λ v. v.items ≡ transfers_in bytes.now) }
{
    let (cells, _rest) = bytes.as_chunks::<6>();
    as_transfers(heap, cells)
}

// Puts the seat of transfer i into the bytes.
fn put_seat(bytes: &mut [u8], i: usize, seat: Seat)
    requires { 6 * i + 5 < length bytes.old }
    ensures { bytes.new ≡ slice_set (slice_set bytes.old (6 * i + 4) seat.round) (6 * i + 5) seat.spine }
{
    bytes[6 * i + 4] = seat.round;
    bytes[6 * i + 5] = seat.spine;
}

// Puts the seats of the transfers into the bytes.
#[tactic(auto, using(crate::proofs::SeatBytes::putting))]
pub(crate) fn put_seats(bytes: &mut [u8], seats: &[Seat])
    requires { 6 * length seats.now ≤ length bytes.old }
    ensures seats { SeatsPut (length seats.now) seats.now bytes.new }
    ensures nodes { NodesKept bytes.old bytes.new }
{
    for (i, seat) in seats.iter().enumerate() {
        put_seat(bytes, i, *seat);
    }
}
