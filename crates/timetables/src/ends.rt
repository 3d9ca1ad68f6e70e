// Transfers as the lines that an arranger colours.
ghost use Rattle.std.specs.Prelude.{◌≡◌};
ghost use Rattle.timetables.specs.Stages.{by_node, by_line};

use lines::line::Line;
use ports::transfer::Transfer;

// A transfer as a line from its sender to its receiver.
pub fn by_node(transfer: Transfer) -> Line
    ensures { result ≡ by_node transfer }
{
    Line {
        left: transfer.sender,
        right: transfer.receiver,
        colour: 0,
    }
}

// A transfer as a line from its send line to its receive line, with n nodes on each. With n = 0, which no cabinet has, both
// ends are 0.
pub fn by_line(transfer: Transfer, n: u8) -> Line
    ensures { result ≡ by_line n transfer }
{
    let n = u16::from(n);
    Line {
        left: transfer.sender.checked_div(n).unwrap_or(0),
        right: transfer.receiver.checked_div(n).unwrap_or(0),
        colour: 0,
    }
}
