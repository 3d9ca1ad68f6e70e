// A permutation of the twelve nodes of a cabinet with three lines of four nodes.
ghost use Rattle.std.specs.Prelude.{IfOk, string_bytes};
ghost use Rattle.spinesets.specs.Example.{NotRefused, ExampleSets, ExampleMeter};

use crate::share::{ShareError, share_out};
use crate::text::sets_text;
use failure::Failure;
use lines::arranger::Arranger;
use ports::transfer::Transfer;
use std::alloc::{AllocError, Global};

// Every node sends once and receives once.
const PERMUTATION: [Transfer; 12] = [
    Transfer {
        sender: 0,
        receiver: 6,
    },
    Transfer {
        sender: 1,
        receiver: 4,
    },
    Transfer {
        sender: 2,
        receiver: 11,
    },
    Transfer {
        sender: 3,
        receiver: 0,
    },
    Transfer {
        sender: 4,
        receiver: 3,
    },
    Transfer {
        sender: 5,
        receiver: 1,
    },
    Transfer {
        sender: 6,
        receiver: 2,
    },
    Transfer {
        sender: 7,
        receiver: 8,
    },
    Transfer {
        sender: 8,
        receiver: 5,
    },
    Transfer {
        sender: 9,
        receiver: 7,
    },
    Transfer {
        sender: 10,
        receiver: 10,
    },
    Transfer {
        sender: 11,
        receiver: 9,
    },
];

// The sets of the four spines. No arranger refuses them: each serves four colours, and no line has more than four
// transfers.
pub fn example_sets<A: Arranger>(heap: Global, arranger: &mut A) -> Result<String, AllocError>
    ensures sets { IfOk result (λ t. ExampleSets (string_bytes t)) }
    ensures meter { ExampleMeter result (A.shows arranger.old) (A.shows arranger.new) }
{
    match share_out(heap, arranger, &PERMUTATION, 4) {
        Ok(assigned) => sets_text(heap, 4, assigned.as_slice()),
        Err(error) => Err(no_memory(error)),
    }
}

// An error that is no refusal.
fn no_memory(error: ShareError) -> AllocError
    requires { NotRefused error }
{
    match error {
        Failure::Refused(_) => unreachable(),
        Failure::OutOfMemory => AllocError,
    }
}
