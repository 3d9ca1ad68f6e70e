// The head of a job image, its first cell.
ghost use Rattle.std.specs.Prelude.{◌≡◌};
ghost use Rattle.image.specs.Cells.{head_of};

use ports::sizes::Sizes;

// The mark that every image begins with.
pub const MARK: [u8; 4] = [0x52, 0x42, 0x4B, 0x31];

// What a head says.
#[derive(Clone, Copy)]
pub struct Head {
    pub sizes: Sizes,
    pub rounds: u8,
    // the cell of the first record; 0 for none
    pub first: u16,
}

impl Head {
    // What the cell says as a head; none where its mark or a spare byte is wrong.
    pub fn read(cell: &[u8; 16]) -> Option<Head>
        ensures { result ≡ head_of cell.now }
    {
        let [b0, b1, b2, b3, m, n, rounds, 0, low, high, 0, 0, 0, 0, 0, 0] = *cell else {
            return None;
        };
        if [b0, b1, b2, b3] != MARK {
            return None;
        }
        Some(Head {
            sizes: Sizes { m, n },
            rounds,
            first: u16::from_le_bytes([low, high]),
        })
    }
}
