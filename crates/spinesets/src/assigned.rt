// Transfers with the spines that they go by.
use ports::transfer::Transfer;

// A transfer with the spine that it goes by.
#[derive(Clone, Copy)]
pub struct Assigned {
    pub transfer: Transfer,
    pub spine: u8,
}
