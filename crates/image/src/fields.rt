// The fields of a cell.
ghost use Rattle.std.specs.Prelude.{◌≡◌};
ghost use Rattle.image.specs.Cells.{next_index, transfer_of};

use ports::transfer::Transfer;

// The index of the next cell that a record's cell holds.
pub(crate) fn next_index(cell: &[u8; 16]) -> u16
    ensures { result ≡ next_index cell.now }
{
    u16::from_le_bytes([cell[2], cell[3]])
}

// The transfer of a transfer's cell.
pub fn transfer(cell: &[u8; 16]) -> Transfer
    ensures { result ≡ transfer_of cell.now }
{
    Transfer {
        sender: u16::from_le_bytes([cell[4], cell[5]]),
        receiver: u16::from_le_bytes([cell[6], cell[7]]),
    }
}
