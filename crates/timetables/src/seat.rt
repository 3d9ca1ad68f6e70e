// Seats.

// Where a transfer is put in a timetable. A round is one turn of the cabinet: its packets travel together. The spine is the
// spine switch by which the transfer's packet goes.
#[derive(Clone, Copy, PartialEq, Eq, Debug)]
pub struct Seat {
    pub round: u8,
    pub spine: u8,
}
